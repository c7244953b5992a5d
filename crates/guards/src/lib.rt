// Guard lists: which lock guards which variable, read into a table of codes, one for each variable.

#![tactic(auto)]

ghost use Rattle.std.specs.Prelude.{◌≡◌};
ghost use Rattle.guards.specs.Guards.{guard_of, guard_line, guards_read, guards_under};
ghost use Rattle.guards.specs.Judgement.{way_of, list_of};

use digits::read_line;
use frame::{LOCKS, Lock, MOST, MOST_PLACE, Refusal, Refused, VARIABLES, Variable};
use text::MOST_BYTES;

// The codes of a table: a lock is its own, then come the code of a variable that is unprotected, and of one whose guard is inferred.
pub const UNPROTECTED: u8 = LOCKS as u8;

pub const INFERRED: u8 = UNPROTECTED + 1;

// The first numbers of a guard line that name no variable and no lock.
const VARIABLE_END: u32 = VARIABLES as u32;

const LOCK_END: u32 = LOCKS as u32;

// How guards are given: declared by a guard list, or all inferred.
#[derive(Clone, Copy)]
pub enum Judgement<'a> {
    Declared(&'a [u8]),
    Inferred,
}

// What guards a variable.
#[derive(Clone, Copy)]
pub enum Guard {
    Locked(Lock),
    Unprotected,
    Inferred,
}

// What a guard line names.
#[derive(Clone, Copy)]
struct GuardLine {
    variable: Variable,
    lock: Lock,
}

// What reading a guard list answers. Where the list is refused, the table is the one that the lines before give.
#[derive(Drop)]
pub struct GuardsRead {
    pub reply: Result<u32, Refused>,
    pub table: [u8; VARIABLES],
}

// The guard that a code of a table stands for.
pub fn guard_of(code: u8) -> Guard
    ensures { result ≡ guard_of code }
{
    if code < UNPROTECTED {
        Guard::Locked(Lock(code))
    } else if code == UNPROTECTED {
        Guard::Unprotected
    } else {
        Guard::Inferred
    }
}

// What a line names on its own: a variable and its lock, or why it is refused.
fn guard_line(line: Option<u32>) -> Result<GuardLine, Refusal>
    ensures { result ≡ guard_line line }
{
    let Some(word) = line else {
        return Err(Refusal::Line);
    };
    let variable = word / 0x10000;
    let lock = word % 0x10000;
    if VARIABLE_END <= variable || LOCK_END <= lock {
        return Err(Refusal::GuardRange);
    }
    Ok(GuardLine {
        variable: Variable(variable as u16),
        lock: Lock(lock as u8),
    })
}

// The guards of a list, and its number of lines: each line names a variable and its lock, and a variable that no line names is unprotected.
// Where the list is refused, the table is the one that the lines before give.
pub fn read_guards(list: &[u8], table: &mut [u8; VARIABLES]) -> Result<u32, Refused>
    ensures reply { result ≡ (guards_read list.now).reply }
    ensures table { table.new ≡ (guards_read list.now).table }
{
    *table = [UNPROTECTED; VARIABLES];
    for i in 0..MOST {
        if list.len() <= 9 * i {
            return Ok(i as u32);
        }
        match guard_line(read_line(list, 9 * i)) {
            Err(reason) => return Err(reason.at(i as u32)),
            Ok(line) => {
                let v = usize::from(line.variable.0);
                if table[v] != UNPROTECTED {
                    return Err(Refusal::GuardRepeated.at(i as u32));
                }
                table[v] = line.lock.0;
            }
        }
    }
    if list.len() <= MOST_BYTES {
        Ok(MOST_PLACE)
    } else {
        Err(Refusal::TooLong.at(MOST_PLACE))
    }
}

// The same with nothing lent: the number of lines, and the table by value.
pub fn read(list: &[u8]) -> GuardsRead
    ensures { result ≡ guards_read list.now }
{
    let mut table = [UNPROTECTED; VARIABLES];
    let reply = read_guards(list, &mut table);
    GuardsRead { reply, table }
}

impl Judgement<'_> {
    // The guards of a judgement: those that its list names, or all inferred. The reply is the number of lines read.
    pub fn guards(self, table: &mut [u8; VARIABLES]) -> Result<u32, Refused>
        ensures reply { result ≡ (guards_under (way_of self.entry) (list_of self.entry)).reply }
        ensures table { table.new ≡ (guards_under (way_of self.entry) (list_of self.entry)).table }
    {
        match self {
            Judgement::Declared(list) => read_guards(list, table),
            Judgement::Inferred => {
                *table = [INFERRED; VARIABLES];
                Ok(0)
            }
        }
    }

    // The same with nothing lent: the number of lines read, and the table by value.
    pub fn read(self) -> GuardsRead
        ensures { result ≡ guards_under (way_of self.entry) (list_of self.entry) }
    {
        let mut table = [UNPROTECTED; VARIABLES];
        let reply = self.guards(&mut table);
        GuardsRead { reply, table }
    }
}
