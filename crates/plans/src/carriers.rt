/// A carrier of a plan: where it starts, where it is to go, and the places of its path, none if it has no path yet.
#[derive(Drop)]
pub struct Carrier {
    pub start: u16,
    pub goal: u16,
    pub path: Vec<u16>,
}
