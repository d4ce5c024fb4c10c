// A slot, by its number, and its new value.
#[derive(Clone, Copy)]
pub struct Edit {
    pub slot: i64,
    pub value: i64,
}
