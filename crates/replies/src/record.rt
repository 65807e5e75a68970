// A record as a line.
ghost use Rattle.std.specs.Prelude.{[], ◌∷◌};
ghost use Rattle.field.specs.Text.{bytes};
ghost use Rattle.text.specs.Decimal.{natural};
ghost use Rattle.text.specs.Spaced.{spaced};
ghost use Rattle.text.specs.Pen.{Puts};
ghost use Rattle.replies.specs.Reply.{record_text};

use behind::parts;
use reader::record::Record;
use text::pen::Pen;

// All but the slots.
fn put_counts(pen: &mut Pen, r: Record)
    ensures { Puts (spaced (bytes "record" ∷ natural r.marks.stage ∷ natural r.choices.kind ∷ natural r.choices.component ∷ natural r.choices.coverage ∷ natural r.marks.lines ∷ natural r.slots.held ∷ [])) pen.old pen.new }
{
    parts::put_line(
        pen,
        b"record",
        &[
            u64::from(r.marks.stage),
            u64::from(r.choices.kind),
            u64::from(r.choices.component),
            u64::from(r.choices.coverage),
            u64::from(r.marks.lines),
            r.slots.held as u64,
        ],
    );
}

// "record", its counts, and every slot, held or not.
pub fn put_record(pen: &mut Pen, r: Record)
    ensures { Puts (record_text r) pen.old pen.new }
{
    put_counts(pen, r);
    parts::next_numbers(pen, &r.slots.ticks);
    parts::next_numbers(pen, &r.slots.headings);
}
