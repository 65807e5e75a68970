// What a command comes to.
use reader::reader::Answer;

#[derive(Clone, Copy)]
pub enum Reply {
    Unknown,
    Lent(usize, usize),
    Open,
    Answered(Answer),
    Listing,
    Proteus(usize),
    Coefficient(i32, i32),
    Sea(usize),
    Force(i64),
    ShownForce(u64, u64),
    ShownMoment(u64, u64),
    Kept(u8),
    Cell(i32, i32, u8),
    Poked,
    Spilt(u8),
    Forged,
    Record,
    Sum(u32),
}
