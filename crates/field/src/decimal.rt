// What a field says: a sign, up to 15 digits and a power of ten. The power is `up` less `down`, so that neither has a sign.
#[derive(Clone, Copy)]
pub struct Decimal {
    pub negative: bool,
    pub digits: u64,
    pub up: u32,
    pub down: u32,
}
