//! The lock. Its table has a word of the next ticket, a word of the ticket that is served, both
//! modulo 2^64, and a slot for the value, which is at home while nobody has a turn.

ghost use Rattle.std.specs.Prelude.{◌≡◌, ℕ, ◌%◌, ◌^◌, ◌<◌, false, true, List, [], ◌∷◌, ◌++◌, Some, IfOk, All, IsPermutation};
ghost use Rattle.turn_lock.specs.declared.view.TurnEntry.{TurnEntry};
ghost use Rattle.turn_lock.specs.Turns.{turn, turns_of, StartsWith, opened, after_split, new_pass, after_join, entered, after_turn};
ghost use Rattle.turn_lock.specs.Steps.{Found};

use crate::rule::{Cut, Draw, End, EndBare, Glue, Look, Story, Ticketing};
use crate::tokens::{Opener, Pass, Visit};
use crate::view::View;
use atomic_table::{Refused, Seat, Table};
use op_base::NoMemory;
use std::alloc::Global;
use std::marker::Model;
use std::sync::Wait;
use std::{hint, thread};
use store_io::Gate;

/// The word of the next ticket.
const TICKET: usize = 0;

/// The word of the ticket that is served.
const SERVING: usize = 1;

/// A pass that waits looks so often before it yields. With fewer looks two threads take longer to hand
/// a turn over, with more those take longer that are more than the processors.
const LOOKS: u32 = 32;

/// The slot of the value.
const VALUE: usize = 0;

/// A lock round one value. X is the value, E what a turn records, K what the lock is told when it is
/// made, and P says which value fits which list of turns.
#[derive(Drop)]
pub struct TurnLock<X, E, K, P: Story<X, E, K>> {
    table: Table<Option<X>, View<E, K>, K, Ticketing<P>, Global>,
}

impl<X, E, K, P: Story<X, E, K>> Model for TurnLock<X, E, K, P> {
    ghost use Rattle.std.specs.Prelude.{◌≡◌};
    ghost use Rattle.turn_lock.specs.Turns.{LockState};

    ghost Value = { LockState K };

    ghost view = { λ lock. record { table = lock.table.shared.table_id; key = lock.table.shared.key } };

    ghost invariant = { λ lock. (lock.table.shared.table_id.words ≡ 2) × (lock.table.shared.table_id.slots ≡ 1) };
}

impl<X: Drop, E, K, P: Story<X, E, K>> TurnLock<X, E, K, P> {
    /// A lock round a value that fits no turns, and its opener. On `NoMemory` the value is dropped.
    pub fn create(
        alloc: Global,
        value: X,
        key: &K,
    ) -> Result<(TurnLock<X, E, K, P>, Opener<X, E, K>), NoMemory>
        requires { P.fits key.now [] value }
        ensures key { IfOk result (λ made. made.0.key ≡ key.now) }
        ensures opener { IfOk result (λ made. made.1 ≡ opened made.0) }
    {
        let mut slots = Vec::with_capacity(alloc, 1)?;
        slots.push_reserved(Some(value));
        match Table::new(alloc, &[0, 0], slots, key) {
            Ok((table, seat)) => Ok((TurnLock { table }, Opener { seat, out: 0 })),
            Err(Refused { slots: _ }) => Err(NoMemory),
        }
    }
}

impl<X, E, K, P: Story<X, E, K>> TurnLock<X, E, K, P> {
    /// A new pass, which has seen what the opener has, and has a number of its own. It waits for
    /// nobody and takes no memory.
    pub fn split(&self, opener: &mut Opener<X, E, K>) -> Pass<X, E, K>
        requires lock { opener.old.lock ≡ self.now }
        requires room { opener.old.out < 1024 }
        ensures opener { opener.new ≡ after_split opener.old }
        ensures pass { result ≡ new_pass opener.old }
    {
        opener.out += 1;
        Pass {
            seat: self.table.shared.split_seat::<Cut>(&mut opener.seat),
            ticket: 0,
        }
    }

    /// Takes a pass back that has no turn. The opener has then seen the longer of the two lists, and
    /// its own turns include the pass's; it keeps what the pass had seen, for `close` to tell that all
    /// of it is of one list. It waits for nobody.
    pub fn join(&self, opener: &mut Opener<X, E, K>, pass: Pass<X, E, K>)
        requires opener { opener.old.lock ≡ self.now }
        requires pass { pass.lock ≡ self.now }
        requires idle { pass.in_turn ≡ false }
        ensures { opener.new ≡ after_join opener.old pass }
    {
        let Pass { seat, ticket: _ } = pass;
        let shared = &self.table.shared;
        shared.join_seat::<Glue<X, P>>(&mut opener.seat, seat);
        // It is above 0 while a pass is out, which the rule knows and the code need not.
        opener.out = opener.out.saturating_sub(1);
    }

    /// Waits for a turn of the pass and takes the value. What the pass has then seen is the list as
    /// it is in this turn: the value fits it, it begins with what the pass had seen, and the turns of
    /// the pass in it are its own. The gate is passed before the turn is asked for and again inside.
    pub fn enter<R: Wait, G: Gate>(
        &self,
        rt: &R,
        pass: &mut Pass<X, E, K>,
        visit: &Visit<'_, G>,
    ) -> X
        requires lock { pass.old.lock ≡ self.now }
        requires idle { pass.old.in_turn ≡ false }
        ensures pass { pass.new ≡ entered pass.new.seen pass.old }
        ensures seen { StartsWith pass.new.seen pass.old.seen }
        ensures own { turns_of pass.new.number pass.new.seen ≡ pass.new.own }
        ensures fits { P.fits self.now.key pass.new.seen result }
    {
        visit.gate.before(visit.worker, visit.call);
        let shared = &self.table.shared;
        pass.ticket = shared.fetch_add::<Draw>(&mut pass.seat, TICKET, 1);
        self.await_turn(rt, &mut pass.seat, pass.ticket);
        let value = shared.exchange(&mut pass.seat, VALUE, None).unwrap();
        visit.gate.inside(visit.worker, visit.call);
        value
    }

    /// Loads the serving word until it is the ticket that the seat holds.
    fn await_turn<R: Wait>(&self, rt: &R, seat: &mut Seat<Option<X>, View<E, K>>, ticket: u64)
        requires table { seat.old.table_id ≡ self.now.table }
        requires waits { (seat.old.me.0.draws ≡ true) × (seat.old.me.0.serves ≡ false) }
        requires ticket { ticket ≡ seat.old.me.0.ticket % 2 ^ 64 }
        ensures table { seat.new.table_id ≡ seat.old.table_id }
        ensures found { Found P.fits seat.old.me seat.new.me }
    {
        for _ in rt.forever() {
            for _ in 0..LOOKS {
                if self.table.shared.load::<Look<P>>(seat, SERVING) == ticket {
                    return;
                }
                hint::spin_loop();
            }
            thread::yield_now();
        }
        unreachable!()
    }

    /// Puts the value back and ends the turn with an entry of the list: what the turn recorded, as
    /// the value shows it.
    pub fn act(&self, pass: &mut Pass<X, E, K>, value: X)
        requires lock { pass.old.lock ≡ self.now }
        requires turn { pass.old.in_turn ≡ true }
        requires fits { (e : E) × P.fits self.now.key (pass.old.seen ++ turn pass.old.number e ∷ []) value }
        ensures pass { (e : E) → P.fits self.now.key (pass.old.seen ++ turn pass.old.number e ∷ []) value → pass.new ≡ after_turn (turn pass.old.number e ∷ []) pass.old }
        ensures own { turns_of pass.new.number pass.new.seen ≡ pass.new.own }
    {
        let shared = &self.table.shared;
        match shared.exchange(&mut pass.seat, VALUE, Some(value)) {
            None => {}
            Some(_) => unreachable!(),
        }
        shared.store::<End<P>>(&mut pass.seat, SERVING, pass.ticket.wrapping_add(1));
    }

    /// Puts the value back and ends the turn with no entry of the list.
    pub fn leave(&self, pass: &mut Pass<X, E, K>, value: X)
        requires lock { pass.old.lock ≡ self.now }
        requires turn { pass.old.in_turn ≡ true }
        requires fits { P.fits self.now.key pass.old.seen value }
        ensures pass { pass.new ≡ after_turn [] pass.old }
        ensures own { turns_of pass.new.number pass.new.seen ≡ pass.new.own }
    {
        let shared = &self.table.shared;
        match shared.exchange(&mut pass.seat, VALUE, Some(value)) {
            None => {}
            Some(_) => unreachable!(),
        }
        shared.store::<EndBare>(&mut pass.seat, SERVING, pass.ticket.wrapping_add(1));
    }

    /// The value, once all passes are joined. It fits the list that the opener has then seen, which
    /// is of the turns that the opener joined and no others, those of each number in their order. All
    /// that a joined pass had seen is a front of it.
    pub fn close(self, opener: Opener<X, E, K>) -> X
        requires lock { opener.lock ≡ self }
        requires none { opener.out ≡ 0 }
        ensures fits { P.fits self.key opener.seen result }
        ensures turns { IsPermutation opener.own opener.seen }
        ensures fronts { All (StartsWith opener.seen) opener.fronts }
        ensures order { (number : ℕ) → turns_of number opener.own ≡ turns_of number opener.seen }
    {
        let TurnLock { table } = self;
        let Opener { seat, out: _ } = opener;
        let mut closed = table.close_with(seat);
        let value = closed.take(VALUE).unwrap();
        closed.free();
        value
    }
}
