use board::Board;

// What a sheet writes: a board, and the spots with traps in listed order.
#[derive(Drop)]
pub struct Sheet {
    pub board: Board,
    pub traps: Vec<u8>,
}
