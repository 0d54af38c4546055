// What a round made: the places that it marked, and its looks.
#[derive(Clone, Copy)]
pub struct Made {
    pub marked: usize,
    pub looks: u64,
}
