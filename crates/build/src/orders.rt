// The commands of one byte.

ghost use Rattle.std.proofs.Common.{rules};
ghost use Rattle.std.specs.Cmp.{on_per};
ghost use Rattle.std.specs.Cmp.Rules.{comparing};
ghost use Rattle.std.specs.Cmp.Lexicographic.{pointwise, lists_per};
ghost use Rattle.std.specs.Prelude.{take, ◌≡◌, ◌+◌, ◌<◌, ◌≤◌, [], ◌∷◌, ◌++◌, length, map};

#[derive(Clone, Copy, PartialEq, Eq)]
pub enum Order {
    // Register `to` gets the place of the byte.
    Set(u8),
    // Register `to` gets what register `from` held.
    Move(u8, u8),
}

// At most one for each register.
#[derive(Clone, Copy)]
pub struct Orders {
    pub n: usize,
    pub list: [Order; 64],
    pub ghost few: { n ≤ 64 },
}

impl Orders {
    ghost use Rattle.build.specs.Orders.{order_of, orders_of};

    #[tactic(auto, unfolding(crate::specs::Orders::orders_of))]
    pub fn none() -> Orders
        ensures count { result.n ≡ 0 }
        ensures list { orders_of result ≡ [] }
    {
        Orders {
            n: 0,
            list: [Order::Set(0); 64],
        }
    }

    #[tactic(auto, using(std::proofs::lemmas::List::take_more_set, ground::proofs::Lists::map_append), unfolding(crate::specs::Orders::orders_of))]
    pub fn add(&mut self, o: Order)
        requires { self.old.n < 64 }
        ensures count { self.new.n ≡ self.old.n + 1 }
        ensures list { orders_of self.new ≡ orders_of self.old ++ (order_of o ∷ []) }
    {
        self.list[self.n] = o;
        self.n += 1;
    }

    #[tactic(auto, unfolding(crate::specs::Orders::orders_of))]
    pub fn all(&self) -> &[Order]
        ensures cells { result.now ≡ take self.now.n self.now.list }
        ensures commands { map order_of result.now ≡ orders_of self.now }
        ensures few { length result.now ≤ 64 }
    {
        &self.list[..self.n]
    }
}

// Cells of the array past the commands do not count.
impl PartialEq for Orders {
    ghost eq = { λ a b. pointwise ⟦<Order as PartialEq>⟧.eq (take a.n a.list) (take b.n b.list) };

    ghost laws = { on_per (λ a. take a.n a.list) (lists_per (Prim.search (comparing, rules))) };

    fn eq(&self, other: &Orders) -> bool {
        self.all() == other.all()
    }
}
