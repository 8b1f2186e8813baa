//! The rule of the table, and the names of its steps. These types are for the proofs alone.
ghost use Rattle.std.specs.Prelude.{ℕ};
ghost use Rattle.turn_lock.specs.Rule.{IsLocked};
ghost use Rattle.turn_lock.specs.Views.{first_view};
ghost use Rattle.turn_lock.specs.Plays.{Compares, Counts, Draws, Logs, Looks, Passes};
ghost use Rattle.turn_lock.specs.Plays.{begins_with, joined, leaves, spent};

use crate::kept::Kept;
use crate::view::View;
use atomic_table::{Join, Play, Split, TableRule};
use std::marker::{Brand, PhantomData};
use std::snapshot::Snapshot;

// The rule, which knows the lock's value as it was at first.
pub struct Law<T> {
    marker: PhantomData<T>,
}

impl<T: Kept> TableRule<Option<T>, View<T::Event, T::Origin>, Snapshot<T>> for Law<T> {
    ghost holds = { λ first. IsLocked T.origin T.events T.names (T.origin first.value) };

    ghost first = { λ first. first_view (T.origin first.value) };
}

pub struct Draw;

impl<T, E, O> Play<Option<T>, View<E, O>> for Draw {
    ghost then = { λ step before found after. Draws before found after };
}

pub struct Look;

impl<T: Kept> Play<Option<T>, View<T::Event, T::Origin>> for Look {
    ghost then = { λ step before found after. Looks T.origin T.events T.names before found after };
}

pub struct Count;

impl<T, E, O> Play<Option<T>, View<E, O>> for Count {
    ghost then = { λ step before found after. Counts before found after };
}

pub struct Log;

impl<T: Kept> Play<Option<T>, View<T::Event, T::Origin>> for Log {
    ghost then = { λ step before found after. Logs T.events before after };
}

pub struct Pass;

impl<T, E, O> Play<Option<T>, View<E, O>> for Pass {
    ghost then = { λ step before found after. Passes before after };
}

pub struct Compare;

impl<T, E, O> Play<Option<T>, View<E, O>> for Compare {
    ghost then = { λ step before found after. Compares before after };
}

// The number that goes with a split. Each call picks it.
pub trait Chosen {
    ghost number: { ℕ };
}

impl Chosen for Brand {
    ghost number = { 0 };
}

pub struct Part<J> {
    marker: PhantomData<J>,
}

impl<E, O, J: Chosen> Split<View<E, O>> for Part<J> {
    ghost left = { leaves J.number };

    ghost right = { begins_with J.number };
}

pub struct Both;

impl<E, O> Join<View<E, O>> for Both {
    ghost both = { joined };

    ghost spent = { spent };
}
