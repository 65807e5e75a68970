// Nodes, pairs of them, and the slots that frequencies and headings stand in.

// A node: a frequency, in ticks, with a heading, in millidegrees.
#[derive(Clone, Copy, Debug, PartialEq, Eq)]
pub struct Node {
    pub tick: u32,
    pub heading: i32,
}

#[derive(Clone, Copy, Debug, PartialEq, Eq)]
pub struct Pair {
    pub first: Node,
    pub second: Node,
}

// Frequencies and headings in their slots. A frequency's slot is free while it holds 0; of the headings so many are held, from the first on.
#[derive(Clone, Copy, Debug, PartialEq, Eq)]
pub struct Slots {
    pub ticks: [u32; 20],
    pub headings: [i32; 4],
    pub held: usize,
}
