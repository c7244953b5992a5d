// The names of kinds and refusals, written into a lent buffer as far as there is room. The reply is the length of the name.

#![tactic(auto)]

ghost use Rattle.std.specs.Prelude.{◌≡◌, length};
ghost use Rattle.output.specs.Output.{written};
ghost use Rattle.names.specs.Names.{IsPlace, name_at, kind_place, refusal_place, kind_name, refusal_name};

use output::Text;

// The name at a place of the table of them all; nothing where there is no place.
fn put_name(out: &mut [u8], place: Option<u8>) -> usize
    requires { IsPlace place }
    ensures length { result ≡ length (name_at place) }
    ensures contents { out.new ≡ written out.old 0 (name_at place) }
{
    let Some(place) = place else {
        return 0;
    };
    let line = textlines::nth_line(
        b"reducible\n\
            guard not held\n\
            unprotected access after commit\n\
            acquire after commit\n\
            candidate set emptied\n\
            malformed line\n\
            too many frames\n\
            words too short\n\
            operation out of range\n\
            thread out of range\n\
            object out of range\n\
            lock held by other\n\
            lock not held\n\
            nesting too deep\n\
            no open block\n\
            guard out of range\n\
            variable already named\n\
            not reducible\n\
            block still open\n\
            output too short\n\
            sets too short\n\
            line too short\n\
            not a verdict line\n\
            text too short\n\
            too many holds\n\
            moves too short\n",
        place,
    );
    let name = &line[..line.len() - 1];
    let mut text = Text::over(out);
    text.put_text(name);
    name.len()
}

// The place of a refusal's name, by its number.
fn refusal_place(number: u8) -> Option<u8>
    ensures { result ≡ refusal_place number }
{
    match number {
        1..=21 => Some(number + 4),
        _ => None,
    }
}

// The place of a kind's name.
fn kind_place(kind: u8) -> Option<u8>
    ensures { result ≡ kind_place kind }
{
    match kind {
        0..=4 => Some(kind),
        5..=127 => None,
        _ => refusal_place(kind - 128),
    }
}

// The name of a kind.
pub fn put_kind_name(out: &mut [u8], kind: u8) -> usize
    ensures length { result ≡ length (kind_name kind) }
    ensures contents { out.new ≡ written out.old 0 (kind_name kind) }
{
    put_name(out, kind_place(kind))
}

// The name of a refusal, by its number.
pub fn put_refusal_name(out: &mut [u8], number: u8) -> usize
    ensures length { result ≡ length (refusal_name number) }
    ensures contents { out.new ≡ written out.old 0 (refusal_name number) }
{
    put_name(out, refusal_place(number))
}
