// What all the lent tables share: a word of one, read and put; what every table call refuses first; and the refusals of table calls.
ghost use Rattle.std.specs.Prelude.{◌≡◌, get_or, set};
ghost use Rattle.ground.specs.Table.{wrong_table, refused_number, call_number};

// What a table call is refused for, under the list's number.
#[derive(Clone, Copy, Debug, PartialEq, Eq)]
pub enum Refused {
    WrongCall = 1,
    WindowValues = 10,
    Overlap = 11,
    Repetition = 12,
}

// The list's number.
impl From<Refused> for u32 {
    ghost from_gives = { λ refused n. n ≡ refused_number refused };

    fn from(refused: Refused) -> u32 {
        refused as u32
    }
}

// What a table call answers, as the list's number: 0 for done, else that of its refusal.
pub fn call_number(called: Result<(), Refused>) -> u32
    ensures { result ≡ call_number called }
{
    match called {
        Ok(()) => 0,
        Err(refused) => u32::from(refused),
    }
}

// "Partition above 15", or a table of another length than the call's.
pub fn wrong_table(p: u32, have: usize, want: usize) -> bool
    ensures { result ≡ wrong_table p have want }
{
    (15 < p) | (have != want)
}

// The word at `i` of a table, and `past_end` past its end.
pub fn word<T: Copy>(table: &[T], i: usize, past_end: T) -> T
    ensures { result ≡ get_or table.now i past_end }
{
    table.get(i).copied().unwrap_or(past_end)
}

// Puts a word at `i` of a table; past its end nothing.
pub fn put<T: Copy>(table: &mut [T], i: usize, word: T)
    ensures { table.new ≡ set table.old i word }
{
    if i < table.len() {
        table[i] = word;
    }
}
