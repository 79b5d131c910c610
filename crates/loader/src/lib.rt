// The loader: is a table's form right, and can a line make it read an empty register?
#![tactic(auto)]

ghost use Rattle.std.specs.Prelude.{◌≡◌, ◌==◌, ◌+◌, ◌≤◌, ◌<◌, ◌^◌, length};
ghost use Rattle.card.specs.Decode.{table_at};
ghost use Rattle.card.specs.Judged.{Judged};
ghost use Rattle.loader.specs.Judges.{Judges};
ghost use Rattle.loader.specs.Flow.{Listed, flow, Words, Flowed, Round, Sweep, Settled, Loud, EmptyRead, Says, RowsOf, Ready, RowAsks, FieldAsks};
ghost use Rattle.ground.specs.Bits.{bit_of};
ghost use Rattle.answers.specs.Refusals.{number_of};

use answers::Refusal;
use card::Order;

// A list of commands in short: the registers that it writes, those that it reads, and the place after it.
#[derive(Clone, Copy)]
pub struct Gist {
    pub writes: u64,
    pub reads: u64,
    pub end: usize,
}

// The set of one register.
#[tactic(auto, using(crate::proofs::Listing::one_bit))]
fn bit(r: usize) -> u64
    requires { r < 64 }
    ensures { result ≡ 2 ^ r }
{
    1u64 << r
}

// Whether a register is in a set.
fn holds(m: u64, r: usize) -> bool
    requires { r < 64 }
    ensures { result ≡ (bit_of m r == 1) }
{
    (m >> r) % 2 == 1
}

// The list of commands at a place, in short.
#[tactic(auto, using(card::proofs::Laws::move_facts, card::proofs::Laws::put_facts, crate::proofs::Listing::listing_none, crate::proofs::Listing::listing_stop))]
fn list_at(s: &[u8], at: usize) -> Gist
    ensures { Listed s.now at result.writes result.reads result.end }
{
    let mut g = Gist {
        writes: 0,
        reads: 0,
        end: at,
    };
    // A loop: commands differ in length, so the next place is known only after the command.
    loop {
        match card::read_cmd(s, g.end) {
            Order::Move(to, from) => {
                g.writes |= bit(to);
                g.reads |= bit(from);
                g.end += 3;
            }
            Order::Put(to) => {
                g.writes |= bit(to);
                g.end += 2;
            }
            Order::Stop => return g,
        }
    }
}

// What flows along a row: what may be empty before it and is not written by it.
#[tactic(auto, unfolding(crate::specs::Flow::flow))]
fn flowed(old: u64, x: u64, k: u64) -> u64
    ensures { result ≡ flow old x k }
{
    old | ((x | k) ^ k)
}

// The set of situation q flows along the rows at a place, which are its rows.
#[tactic(auto, using(card::proofs::Rows::row_whole, crate::proofs::Flowing::flowing_none))]
fn flow_rows(s: &[u8], at: usize, q: usize, may: &mut [u64; 96])
    requires { RowsOf s.now at q × Words may.old }
    ensures { Flowed s.now at q may.old may.new }
{
    let x = may[q];
    let mut i = at;
    // A loop: rows differ in length, so the next place is known only after the row's commands.
    while let Some((_, _, next)) = card::read_row(s, i) {
        let g = list_at(s, i + 4);
        let n = usize::from(next);
        may[n] = flowed(may[n], x, g.writes);
        i = g.end;
    }
}

// One round: each situation whose set has grown since its rows were last given it gives it to them again. Here and below
// `s` and `places` stay two parameters: what is known of both, `Ready`, is no proposition, as a struct's ghost field asks.
#[tactic(auto, using(crate::proofs::Sweeping::sweeping_none))]
fn sweep(s: &[u8], places: &[usize; 96], may: &mut [u64; 96], seen: &mut [u64; 96]) -> bool
    requires { Ready s.now places.now × Round (table_at s.now) may.old seen.old }
    ensures { Sweep (table_at s.now) may.new seen.new seen.old result }
{
    let mut changed = false;
    for q in 0..card::sit_count(s) {
        let all = seen[q] | may[q];
        if all != seen[q] {
            seen[q] = all;
            flow_rows(s, places[q] + 10, q, may);
            changed = true;
        }
    }
    changed
}

// The registers that may be empty in each situation: round after round until no row adds one.
fn settle(s: &[u8], places: &[usize; 96]) -> [u64; 96]
    requires { Ready s.now places.now }
    ensures { Settled (table_at s.now) result }
{
    let mut may = [0u64; 96];
    let mut seen = [0u64; 96];
    may[0] = flowed(0, u64::MAX, list_at(s, 5).writes);
    while sweep(s, places, &mut may, &mut seen) {}
    may
}

// Whether a row at a place reads a register of a set.
#[tactic(auto, using(card::proofs::Rows::row_whole))]
fn rows_ask(s: &[u8], at: usize, m: u64) -> bool
    ensures { Says (RowAsks s.now at m) result }
{
    let mut i = at;
    // A loop: rows differ in length, so the next place is known only after the row's commands.
    while let Some((_, _, _)) = card::read_row(s, i) {
        let g = list_at(s, i + 4);
        if g.reads & m != 0 {
            return true;
        }
        i = g.end;
    }
    false
}

// Whether one of the eight fields at a place reads a register of a set.
fn fields_ask(s: &[u8], at: usize, m: u64) -> bool
    requires { at + 8 ≤ length s.now }
    ensures { Says (FieldAsks s.now at m) result }
{
    s[at..at + 8]
        .iter()
        .any(|f| *f < 64 && holds(m, usize::from(*f)))
}

// Whether a situation reads a register of its set.
fn some_ask(s: &[u8], places: &[usize; 96], may: &[u64; 96]) -> bool
    requires { Ready s.now places.now }
    ensures { Says (Loud (table_at s.now) may.now) result }
{
    // A `for`: that the places lie in the table is known of each situation, and not inside a closure of `any`.
    for q in 0..card::sit_count(s) {
        let at = places[q];
        let m = may[q];
        if fields_ask(s, at + 2, m) || rows_ask(s, at + 10, m) {
            return true;
        }
    }
    false
}

// Whether some line makes a table of right form read an empty register.
fn empty_read(s: &[u8], places: &[usize; 96]) -> bool
    requires { Ready s.now places.now }
    ensures { Says (EmptyRead (table_at s.now)) result }
{
    let may = settle(s, places);
    some_ask(s, places, &may)
}

// What the loader finds of any bytes: whether they are taken, and the places of the situations, 96 zeros where the form is wrong.
#[derive(Clone, Copy)]
pub struct Judgement {
    pub verdict: Result<(), Refusal>,
    pub places: [usize; 96],
}

// Judges any bytes, for a run that needs the places of the situations too.
pub fn judge(table: &[u8]) -> Judgement
    ensures { Judges table.now (number_of result.verdict) result.places }
{
    let mut places = [0usize; 96];
    if !card::form::form_ok(table) {
        return Judgement {
            verdict: Err(Refusal::TableForm),
            places,
        };
    }
    card::places(table, &mut places);
    if empty_read(table, &places) {
        return Judgement {
            verdict: Err(Refusal::EmptyRead),
            places,
        };
    }
    Judgement {
        verdict: Ok(()),
        places,
    }
}

// Judges any bytes: a table that is taken, or TABLE_FORM, or EMPTY_READ.
pub fn load(table: &[u8]) -> Result<(), Refusal>
    ensures { Judged table.now (number_of result) }
{
    judge(table).verdict
}
