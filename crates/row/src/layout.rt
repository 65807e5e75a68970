// The columns of a row.
ghost use Rattle.std.specs.Prelude.{◌≡◌};
ghost use Rattle.row.specs.Layout.{wamit_layout};

// Which column holds which field, and how many columns there are.
#[derive(Clone, Copy)]
pub struct Layout {
    pub columns: usize,
    pub per1: usize,
    pub per2: usize,
    pub beta1: usize,
    pub beta2: usize,
    pub component: usize,
    pub modulus: usize,
    pub phase: usize,
    pub re: usize,
    pub im: usize,
}

// The nine columns that WAMIT writes.
pub fn wamit() -> Layout
    ensures { result ≡ wamit_layout }
{
    Layout {
        columns: 9,
        per1: 0,
        per2: 1,
        beta1: 2,
        beta2: 3,
        component: 4,
        modulus: 5,
        phase: 6,
        re: 7,
        im: 8,
    }
}
