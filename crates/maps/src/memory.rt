// What is lent to the check of a list of links: room for a copy of the links, for their chains, and for a mark on each space. Chains are places in the list: no call uses the heap.
#[derive(Drop)]
pub struct ListMemory<'a> {
    pub links: &'a mut [(u16, u16)],
    pub head: &'a mut [u16],
    pub next: &'a mut [(u16, u16)],
    pub marks: &'a mut [u8],
}
