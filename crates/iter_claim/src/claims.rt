//! The claims, and the seats from which threads draw.
ghost use Rattle.std.specs.Prelude.{◌≡◌, ◌<◌, ◌≤◌, []};

use crate::view::View;
use atomic_table::{Join, Play, Split, Table, TableRule};
use std::alloc::Global;

type Token = atomic_table::Seat<(), View>;

pub struct Drawing;

impl TableRule<(), View, u32> for Drawing {
    ghost use Rattle.iter_claim.specs.Claiming.{Kept, first_view};

    ghost holds = { Kept };

    ghost first = { first_view };
}

pub(crate) struct Draw;

impl Play<(), View> for Draw {
    ghost use Rattle.iter_claim.specs.Claiming.{draw_tells};

    ghost then = { draw_tells };
}

pub(crate) struct Sharing;

impl Split<View> for Sharing {
    ghost use Rattle.iter_claim.specs.Claiming.{kept_half, given_half};

    ghost left = { kept_half };

    ghost right = { given_half };
}

impl Join<View> for Sharing {
    ghost use Rattle.iter_claim.specs.Claiming.{both as both_views, spent as spent_view};

    ghost both = { both_views };

    ghost spent = { spent_view };
}

/// The numbers from 0 on, below a count, that seats draw. Threads share it by reference.
#[derive(Drop)]
pub struct Claims {
    pub(crate) table: Table<(), View, u32, Drawing, Global>,
    pub(crate) count: u32,
    ghost one_word: { (table.shared.table_id.words ≡ 1) × (table.shared.table_id.slots ≡ 0) ×
        (table.shared.key ≡ count) },
}

/// Where a thread draws from. It can go to another thread.
#[derive(Drop)]
pub struct ClaimSeat {
    pub(crate) token: Token,
    // Whether all numbers were drawn when it looked, or when a seat looked that it knows of.
    pub(crate) stopped: bool,
    ghost idle: { token.me.1 ≡ [] },
    ghost knows: { (token.me.0.stopped ≡ stopped) × (0 < token.me.0.seats) },
}
