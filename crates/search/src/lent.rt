// What a search is lent beside the data: scratch, and a working space.

// What a search knows of a cell: its byte in mark.
#[derive(Clone, Copy, Debug, PartialEq, Eq)]
pub enum Mark {
    Unseen,
    Waiting,
    Expanded,
}

// (Marks and directions are bytes of the C interface.)
#[derive(Drop)]
pub struct Scratch<'a> {
    pub mark: &'a mut [u8],
    pub cost: &'a mut [u16],
    pub trail: &'a mut [u8],
}

// The queue's two lists, the stop test's memory, and the list of expanded cells. What they hold at first does not matter.
// (The memory is in bytes and not in bools: plan's core was lent bytes, and asks for nothing else now.)
#[derive(Drop)]
pub struct Workspace<'a> {
    pub heap: &'a mut [u64],
    pub place: &'a mut [u16],
    pub gone: &'a mut [u8],
    pub list: &'a mut [u16],
}
