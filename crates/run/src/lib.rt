// A run of a table over a line.
#![tactic(auto)]

pub mod lists;

ghost use Rattle.std.specs.Prelude.{◌≡◌, map, ◌≤◌, ◌<◌, ◌+◌, length, get_or, take, drop};
ghost use Rattle.card.specs.Decode.{cmds_at, rows_at, table_at};
ghost use Rattle.card.specs.Run.{line_max, empties, row_for, at, over, tells};
ghost use Rattle.run.specs.Carry.{carry, LeadsTo, field_at, Rides};
ghost use Rattle.run.specs.Runs.{told_of, Runs};

use answers::Refusal;
use bank::Bank;
use std::array;

// What a field that names no register says.
const ABSENT: i16 = -1;

// What a situation without an answer says.
const NO_ANSWER: u8 = 255;

// Where the commands for the start stand in a table.
const START: usize = 5;

// Where the fields and the rows stand in a situation, and the commands in a row.
const FIELDS: usize = 2;

const ROWS: usize = 10;

const CMDS: usize = 4;

// The longest line.
const LINE_MAX: usize = 32767;

// What a table tells of a line that it matches: the answer, and the eight places, -1 for absent.
#[derive(Clone, Copy)]
pub struct Match {
    pub answer: u8,
    pub places: [i16; 8],
}

// A byte's row: where it leads, and the place of its commands.
#[derive(Clone, Copy)]
pub struct Lead {
    pub next: u8,
    pub cmds: usize,
}

// Where a run stands.
#[derive(Clone, Copy)]
pub struct Stand {
    pub sit: u8,
    pub bank: Bank,
}

// The row of a byte, among the rows at a place.
#[tactic(auto, using(crate::proofs::Carrying::rows), unfolding(card::specs::Run::row_for, ground::specs::Pick::pick))]
fn find_row(s: &[u8], at: usize, b: u8) -> Lead
    ensures { LeadsTo s.now (row_for (rows_at s.now at) b) result.next result.cmds }
{
    let mut i = at;
    // A loop: rows differ in length, so the next place is known only after the row's commands.
    while let Some((_, hi, next)) = card::read_row(s, i) {
        if b <= hi {
            return Lead {
                next,
                cmds: i + CMDS,
            };
        }
        i = card::skip_cmds(s, i + CMDS);
    }
    // As `row_for` has it: to situation 0, without a command.
    Lead {
        next: 0,
        cmds: s.len(),
    }
}

// The way of a line through the situations, on an empty bank that is handed in and handed back by value: document 01 has it so.
fn run_line(s: &[u8], places: &[usize; 96], line: &[u8], mut bank: Bank) -> Stand
    requires rides { Rides s.now places.now line.now }
    requires empty { bank.r ≡ empties }
    ensures { (at result.sit result.bank.r ≡ over (table_at s.now) line.now) × (result.sit < get_or s.now 4 0) }
{
    lists::carry_list(s, START, 0, &mut bank.r);
    let mut sit = 0;
    for (i, b) in line.iter().enumerate() {
        let p = places[usize::from(sit)];
        let row = find_row(s, p + ROWS, *b);
        sit = row.next;
        // a list that is empty leaves the bank alone
        let list = row.cmds;
        if !lists::alone(s, list) {
            lists::carry_list(s, list, i + 1, &mut bank.r);
        }
    }
    Stand { sit, bank }
}

// What a field says: a register's place, or none.
#[tactic(auto, using(std::proofs::lemmas::Bool::Decides::nat_tests), unfolding(ground::specs::Pick::pick))]
fn field_at(bank: &[i16], field: u8) -> i16
    requires { 64 ≤ length bank.now }
    ensures { result ≡ field_at bank.now field }
{
    let register = usize::from(field);
    if register < 64 {
        bank[register]
    } else {
        ABSENT
    }
}

// The places that the eight fields at a place name. That there are eight is shown by whoever knows the situation's place.
pub fn fields_at(s: &[u8], at: usize, bank: &[i16]) -> [i16; 8]
    requires { (at + 8 ≤ length s.now) × (64 ≤ length bank.now) }
    ensures { result ≡ map (field_at bank.now) (take 8 (drop at s.now)) }
{
    array::from_fn(|t| field_at(bank, s[at + t]))
}

// What a table tells of a line. That the table is taken and the places are those of its situations `judge` shows.
pub fn run_taken(s: &[u8], places: &[usize; 96], line: &[u8]) -> Result<Match, Refusal>
    requires { Rides s.now places.now line.now }
    ensures { told_of result ≡ tells (table_at s.now) line.now }
{
    let stand = run_line(s, places, line, Bank::empty());
    let p = places[usize::from(stand.sit)];
    let answer = s[p + 1];
    if answer == NO_ANSWER {
        return Err(Refusal::NoMatch);
    }
    Ok(Match {
        answer,
        places: fields_at(s, p + FIELDS, &stand.bank.r),
    })
}

// Judges the table, then runs it over the line.
pub fn run(table: &[u8], line: &[u8]) -> Result<Match, Refusal>
    ensures { Runs table.now line.now (told_of result) }
{
    let judged = loader::judge(table);
    judged.verdict?;
    if LINE_MAX < line.len() {
        return Err(Refusal::LineLong);
    }
    run_taken(table, &judged.places, line)
}
