#![tactic(auto)]

ghost use Rattle.std.specs.Prelude.{◌≡◌, [], ◌∷◌, ◌++◌, map, ◌+◌, ◌-◌, ◌*◌, ◌<◌, ◌≤◌, length, replicate};
ghost use Rattle.ground.specs.Lists.{each, Wrote};
ghost use Rattle.paths.specs.Equal.{same_list};
ghost use Rattle.paths.specs.Registers.{registers, situation};
ghost use Rattle.card.specs.Table.{put, cmd_bytes, row_bytes, sit_bytes, bytes_of};
ghost use Rattle.explore.specs.Lists.{span};
ghost use Rattle.net.specs.Items.{net_at};
ghost use Rattle.explore.specs.Items.{Formed};
ghost use Rattle.explore.specs.Slots.{slot, slots, Fit};
ghost use Rattle.explore.specs.Keys.{keys_at};
ghost use Rattle.explore.specs.Explore.{Holds, Kept, Told};
ghost use Rattle.build.specs.Orders.{order_of, orders_of};
ghost use Rattle.build.specs.Card.{commands, most, sit_of, card_of};
ghost use Rattle.build.specs.Writing.{row_of, Does, alike_deeds, net_in, all_in, Writes, Sound, Stands, GoesOn, rows_bytes, sits_bytes, Ends};
ghost use Rattle.build.specs.Build.{answered, Makes, Attempts, Builds};

use answers::Refusal;
pub use orders::{Order, Orders};

mod orders;

// From an automaton file to a table file, in lent work memory.

// How many bytes of work memory a build needs at least.
const WORK: usize = 65536;

// The bytes of a situation in the work memory.
const SLOT: usize = 578;

// The kinds of a table's items.
const HEAD: u8 = 0x21;

const SITUATION: u8 = 0x22;

const ROW: u8 = 0x23;

const MOVE: u8 = 0x24;

const SET: u8 = 0x25;

const EDITION: u8 = 1;

// An answer or a register that is not there, as document 01 writes it in a table.
const ABSENT: u8 = 255;

// ---- commands

// The commands that fill n registers from where each comes from; `fresh` stands for the place of the byte.
fn commands_of(fresh: u8, regs: &[u8; 128], n: usize) -> Orders
    requires { n ≤ 64 }
    ensures { orders_of result ≡ commands fresh 0 (map (λ k. k.1) (keys_at regs.now 0 n)) }
{
    let mut all = Orders::none();
    for k in 0..n {
        let from = regs[2 * k + 1];
        let to = k as u8;
        // a MOVE onto itself is left out
        let own = to;
        if from == fresh {
            all.add(Order::Set(to));
        } else if from != own {
            all.add(Order::Move(to, from));
        }
    }
    all
}

// What a byte does: the number of the next situation, and the commands.
#[derive(Clone, Copy, PartialEq)]
pub struct Deed {
    pub next: u8,
    pub orders: Orders,
}

// ---- writing

// What the table is written to, as far as there is room, and the place of its next byte.
#[derive(Drop)]
struct Pen<'a> {
    out: &'a mut [u8],
    at: usize,
}

impl Pen<'_> {
    fn put(&mut self, bs: &[u8])
        requires { self.old.at + length bs.now ≤ 8000000 }
        ensures { Writes self.old self.new bs.now }
    {
        for b in bs {
            if self.at < self.out.len() {
                self.out[self.at] = *b;
            }
            self.at += 1;
        }
    }

    fn order(&mut self, o: Order)
        requires { self.old.at + 3 ≤ 8000000 }
        ensures writes { Writes self.old self.new (cmd_bytes (order_of o)) }
        ensures within { self.new.at ≤ self.old.at + 3 }
    {
        match o {
            Order::Set(to) => self.put(&[SET, to]),
            Order::Move(to, from) => self.put(&[MOVE, to, from]),
        }
    }

    fn orders(&mut self, c: &Orders)
        requires { self.old.at + 192 ≤ 8000000 }
        ensures writes { Writes self.old self.new (each cmd_bytes (orders_of c.now)) }
        ensures within { self.new.at ≤ self.old.at + 192 }
    {
        for o in c.all() {
            self.order(*o);
        }
    }

    fn row(&mut self, lo: u8, hi: u8, d: &Deed)
        requires { self.old.at + 196 ≤ 8000000 }
        ensures writes { Writes self.old self.new (row_bytes (row_of lo hi d.now)) }
        ensures within { self.new.at ≤ self.old.at + 196 }
    {
        self.put(&[ROW, lo, hi, d.next]);
        self.orders(&d.orders);
    }

    // Each register of the start is SET.
    fn start(&mut self, n: u8)
        requires { (self.old.at ≤ 5) × (n ≤ 64) }
        ensures writes { Writes self.old self.new (each cmd_bytes (map put (span 0 n))) }
        ensures within { self.new.at ≤ 200 }
    {
        for k in 0..n {
            self.put(&[SET, k]);
        }
    }
}

// The row that is open: its first byte, and what its bytes do.
#[derive(Clone, Copy)]
pub struct Open {
    pub lo: u8,
    pub deed: Deed,
}

// ---- situations

// The answer of the first END of a list, and its registers.
fn ending_of(file: &[u8], offs: &[usize], s: &[u8]) -> Option<(u8, [u8; 8])>
    requires formed { Formed file.now offs.now }
    requires fit { Fit (length offs.now) s.now }
    ensures { Ends (net_at file.now offs.now) (slot s.now 0) result }
{
    for i in 0..usize::from(s[0]) {
        let e = explore::entry_at(s, 2 + 9 * i);
        if let Some(answer) = explore::end_at(file, offs, e.on) {
            let had = e.had;
            return Some((answer, had));
        }
    }
    None
}

// ---- what the table is written from

// The records of a legal file, its fresh bytes, and all its situations in the work memory.
#[derive(Clone, Copy)]
struct Found<'a> {
    file: &'a [u8],
    offs: &'a [usize],
    news: &'a [u8; 256],
    work: &'a [u8],
    count: usize,
}

impl Found<'_> {
    // What byte b does in the situation s. What it leads to is stored: `stands` says so.
    fn deed(&self, s: &[u8; SLOT], b: u8) -> Deed
        requires sound { Sound self.now }
        requires stands { Stands self.now s.now }
        ensures { Does (net_in self.now) (all_in self.now) (slot s.now 0) b result }
    {
        let mut list = [0u8; SLOT];
        let mut regs = [0u8; 128];
        let k = explore::next_of(self.file, self.offs, s, b, &mut list, &mut regs).unwrap();
        let j = explore::place(self.work, self.count, &list).unwrap();
        Deed {
            next: j as u8,
            orders: commands_of(s[1], &regs, k),
        }
    }

    // Byte b joins the open row, or closes it and opens the next.
    fn row_step(&self, pen: &mut Pen<'_>, s: &[u8; SLOT], q: &mut Open, b: u8)
        requires sound { Sound self.now }
        requires stands { Stands self.now s.now }
        requires b_nonzero { (0 < b) × (pen.old.at + 196 ≤ 8000000) }
        requires does { Does (net_in self.now) (all_in self.now) (slot s.now 0) (b - 1) q.old.deed }
        ensures { GoesOn (net_in self.now) (all_in self.now) (slot s.now 0) pen.old pen.new q.old b q.new }
    {
        let deed = self.deed(s, b);
        if q.deed == deed {
            return;
        }
        pen.row(q.lo, b - 1, &q.deed);
        *q = Open { lo: b, deed };
    }

    // All rows of the situation s. A byte that is not fresh does what the byte before it does.
    fn rows(&self, pen: &mut Pen<'_>, s: &[u8; SLOT])
        requires sound { Sound self.now }
        requires stands { Stands self.now s.now }
        requires at_bound { pen.old.at + 50176 ≤ 8000000 }
        ensures writes { Writes pen.old pen.new (rows_bytes (net_in self.now) (all_in self.now) (slot s.now 0)) }
        ensures within { pen.new.at ≤ pen.old.at + 50176 }
    {
        let mut q = Open {
            lo: 0,
            deed: self.deed(s, 0),
        };
        for b in 1..256 {
            if self.news[b] != 0 {
                self.row_step(pen, s, &mut q, b as u8);
            }
        }
        pen.row(q.lo, 255, &q.deed);
    }

    // Situation i: its SITUATION item and its rows.
    fn sit(&self, pen: &mut Pen<'_>, i: usize)
        requires sound { Sound self.now }
        requires i_in_bounds { i < self.now.count }
        requires at_bound { pen.old.at + 50186 ≤ 8000000 }
        ensures writes { Writes pen.old pen.new (sit_bytes (sit_of (net_in self.now) (all_in self.now) (slot self.now.work.now i))) }
        ensures within { pen.new.at ≤ pen.old.at + 50186 }
    {
        let s = explore::load(self.work, i);
        let none = (ABSENT, [ABSENT; 8]);
        let (answer, had) = ending_of(self.file, self.offs, &s).unwrap_or(none);
        pen.put(&[SITUATION, answer]);
        pen.put(&had);
        self.rows(pen, &s);
    }

    fn sits(&self, pen: &mut Pen<'_>)
        requires sound { Sound self.now }
        requires at_bound { pen.old.at ≤ 200 }
        ensures writes { Writes pen.old pen.new (sits_bytes (net_in self.now) (all_in self.now) (all_in self.now)) }
        ensures within { pen.new.at ≤ 5000000 }
    {
        for i in 0..self.count {
            self.sit(pen, i);
        }
    }

    // The largest need of any situation.
    fn most(&self) -> u8
        requires { Sound self.now }
        ensures { result ≡ most (all_in self.now) }
    {
        let mut m: u8 = 0;
        for j in 0..self.count {
            m = m.max(self.work[SLOT * j + 1]);
        }
        m
    }

    // The whole table, as far as the output has room, and its length.
    fn table(&self, tags: u8, out: &mut [u8]) -> usize
        requires { Sound self.now }
        ensures { Wrote out.old out.new 0 result (bytes_of (card_of tags (net_in self.now) (all_in self.now))) }
    {
        let mut pen = Pen { out, at: 0 };
        pen.put(&[HEAD, EDITION, tags, self.most(), self.count as u8]);
        pen.start(self.work[1]);
        self.sits(&mut pen);
        pen.at
    }
}

// ---- the whole build

// The table's length, its situations and its registers.
#[derive(Clone, Copy)]
pub struct Built {
    pub length: usize,
    pub situations: usize,
    pub registers: usize,
}

// The table of a legal file, whose records stand at `offs`. The fresh bytes are the same for all situations: they are told
// once. The table is first written to nowhere, for its length.
fn make(
    file: &[u8],
    offs: &[usize],
    tags: u8,
    work: &mut [u8],
    out: &mut [u8],
) -> Result<Built, Refusal>
    requires formed { Formed file.now offs.now × (0 < length offs.now) }
    requires in_bounds { 65536 ≤ length work.old }
    ensures size { length work.new ≡ length work.old }
    ensures makes { Makes tags (net_at file.now offs.now) out.old out.new (answered result) }
{
    let news = explore::news(file, offs);
    let count = explore::explore(file, offs, &news, work)?;
    let found = Found {
        file,
        offs,
        news: &news,
        work,
        count,
    };
    let mut nowhere = [0u8; 1];
    let length = found.table(tags, &mut nowhere);
    if out.len() < length {
        return Err(Refusal::OutSmall);
    }
    found.table(tags, out);
    Ok(Built {
        length,
        situations: count,
        registers: usize::from(found.most()),
    })
}

// All but the clearing of the work memory.
fn attempt(file: &[u8], work: &mut [u8], out: &mut [u8]) -> Result<Built, Refusal>
    ensures size { length work.new ≡ length work.old }
    ensures attempts { Attempts file.now (length work.old) out.old out.new (answered result) }
{
    if work.len() < WORK {
        return Err(Refusal::WorkSmall);
    }
    let p = net::places(file)?;
    make(file, &p.at[..p.count], p.tags, work, out)
}

// A table file of an automaton file. The work memory is at least 65,536 bytes, and all zero afterwards.
pub fn build(file: &[u8], work: &mut [u8], out: &mut [u8]) -> Result<Built, Refusal>
    ensures { Builds file.now work.old out.old work.new out.new (answered result) }
{
    let a = attempt(file, work, out);
    work.fill(0);
    a
}
