// What a sheet shows of an owner: how many links they own, and their total.
#[derive(Clone, Copy, Debug, PartialEq, Eq)]
pub struct OwnerTotal<K> {
    pub links: u16,
    pub total: K,
}
