// A heading as it is read. Every heading of a row, a sea line or a coefficient call passes here, a row's after its range.
ghost use Rattle.std.specs.Prelude.{◌≡◌};
ghost use Rattle.row.specs.Heading.{heading_of};

use crate::ranges;

pub fn heading(millidegrees: i32) -> i32
    ensures { result ≡ heading_of millidegrees }
{
    if millidegrees == ranges::HEADING_LEAST {
        ranges::HEADING_MOST
    } else {
        millidegrees
    }
}
