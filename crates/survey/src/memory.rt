// What is lent to a survey: room for an order, for a table of cells, for a byte of the set to each space, and for a mark on each.
#[derive(Drop)]
pub struct SurveyMemory<'a> {
    pub order: &'a mut [u16],
    pub table: &'a mut [u16],
    pub set: &'a mut [u8],
    pub marks: &'a mut [u8],
}
