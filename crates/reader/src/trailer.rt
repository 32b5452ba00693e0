// The trailer: refusals 1 to 3, and where the tables lie. A table is a number where the trailer's places are read, and
// since `table` takes any.
ghost use Rattle.std.specs.Prelude.{◌≡◌, ◌≤◌, ◌<◌, List, ℕ, IfOk, length};
ghost use Rattle.reader.specs.Tables.{width, limit, table_offset, table_count, role_count, length_bad, letters_bad};
ghost use Rattle.reader.specs.Tables.{reserved_bad, tables_bad, trailer_bad, frame_refusal, table_of};
ghost use Rattle.reader.specs.Tables.{user_count, permission_count};
ghost use Rattle.reader.specs.Refusals.{number_of};
ghost use Rattle.reader.specs.Places.{place_of};

use crate::{Refusal, Table, bytes};
use std::marker::Model;

// A table's room: bytes a record, and records at most.
#[derive(Clone, Copy)]
struct Room {
    width: usize,
    limit: usize,
}

// By table: H, U, P, K, C, A, X.
const ROOMS: [Room; 7] = [
    Room {
        width: 2,
        limit: 28,
    },
    Room {
        width: 8,
        limit: 24,
    },
    Room {
        width: 2,
        limit: 16,
    },
    Room {
        width: 16,
        limit: 64,
    },
    Room {
        width: 16,
        limit: 32,
    },
    Room {
        width: 8,
        limit: 64,
    },
    Room {
        width: 3,
        limit: 32,
    },
];

fn room_of(t: usize) -> Room
    requires { t < 7 }
    ensures { (result.width ≡ width t) × (result.width ≤ 16) × (result.limit ≡ limit t) × (result.limit ≤ 64) }
{
    ROOMS[t]
}

// Refusal 1.
#[tactic(auto, unfolding(crate::specs::Tables::length_bad))]
fn length_bad(base: &[u8]) -> bool
    ensures { result ≡ length_bad base.now }
{
    !(36..=2460).contains(&base.len())
}

// Where a table lies, by the trailer: the byte where it starts, and how many records it has.
#[derive(Clone, Copy)]
struct Place {
    offset: usize,
    count: usize,
}

// A lent base that is long enough for a trailer, seen as its bytes.
#[derive(Drop)]
pub struct Trailer<'a> {
    base: &'a [u8],
}

impl<'a> Model for Trailer<'a> {
    ghost Value = { List ℕ };

    ghost view = { λ trailer. trailer.base.now };

    ghost invariant = { λ trailer. 36 ≤ length trailer.base.now };
}

impl<'a> Trailer<'a> {
    // Inner: such a base.
    pub fn of(base: &'a [u8]) -> Trailer<'a>
        requires { 36 ≤ length base.now }
        ensures { result ≡ base.now }
    {
        Trailer { base }
    }

    fn place(&self, t: usize) -> Place
        requires { t < 7 }
        ensures offset { (result.offset ≡ table_offset self.now t) × (result.offset < 65536) }
        ensures count { (result.count ≡ table_count self.now t) × (result.count < 65536) }
    {
        let base = self.base;
        let at = base.len() - 36 + 4 * t;
        Place {
            offset: bytes::get16(base, at) as usize,
            count: bytes::get16(base, at + 2) as usize,
        }
    }

    // Inner: R.
    pub fn role_count(&self) -> u8
        ensures { result ≡ role_count self.now }
    {
        let base = self.base;
        base[base.len() - 36 + 28]
    }

    // Refusal 2.
    fn letters_bad(&self) -> bool
        ensures { result ≡ letters_bad self.now }
    {
        !self.base.ends_with(b"LCAQ")
    }

    // The three zero bytes after R, before the letters.
    fn reserved_bad(&self) -> bool
        ensures { result ≡ reserved_bad self.now }
    {
        let base = self.base;
        !base[..base.len() - 4].ends_with(&[0; 3])
    }

    fn tables_bad(&self) -> bool
        ensures { result ≡ tables_bad self.now }
    {
        let mut at: usize = 0;
        // Each table's end is where the next has to start. No `try_fold`: its closure would hand that on in an
        // `Option`, and say no more.
        for (t, room) in ROOMS.iter().enumerate() {
            let place = self.place(t);
            if room.limit < place.count || place.offset != at {
                return true;
            }
            at += place.count * room.width;
        }
        at != self.base.len() - 36
    }

    // Refusal 3.
    #[tactic(auto, unfolding(crate::specs::Tables::trailer_bad, crate::specs::Tables::roles_bad))]
    fn is_bad(&self) -> bool
        ensures { result ≡ trailer_bad self.now }
    {
        !(1..=8).contains(&self.role_count()) || self.reserved_bad() || self.tables_bad()
    }
}

// Inner: how many roles and how many permissions a base has; what a record names has to be among them.
#[derive(Clone, Copy)]
pub struct Numbers {
    pub roles: u8,
    pub permissions: u8,
    ghost few: { roles ≤ 8 },
}

// A lent base that passed 1 to 3, so that its tables can be read; seen as its bytes.
#[derive(Drop)]
pub struct Frame<'a> {
    trailer: Trailer<'a>,
}

impl<'a> Model for Frame<'a> {
    ghost Value = { List ℕ };

    ghost view = { λ frame. frame.trailer };

    ghost invariant = { λ frame. frame_refusal frame.trailer ≡ 0 };
}

impl<'a> Frame<'a> {
    // Inner: refusals 1 to 3 of a base, or the base as one that passed them.
    pub fn of(base: &'a [u8]) -> Result<Frame<'a>, Refusal>
        ensures number { number_of result ≡ frame_refusal base.now }
        ensures same { IfOk result (λ frame. frame ≡ base.now) }
    {
        if length_bad(base) {
            return Err(Refusal::BaseLength);
        }
        let trailer = Trailer::of(base);
        if trailer.letters_bad() {
            return Err(Refusal::Letters);
        }
        if trailer.is_bad() {
            return Err(Refusal::Trailer);
        }
        Ok(Frame { trailer })
    }

    // Inner: table t.
    pub fn part_at(&self, t: usize) -> &'a [u8]
        requires { t < 7 }
        ensures table { result.now ≡ table_of self.now t }
        ensures framed { frame_refusal self.now ≡ 0 }
    {
        let trailer = &self.trailer;
        let place = trailer.place(t);
        let end = place.offset + place.count * room_of(t).width;
        let base = trailer.base;
        &base[place.offset..end]
    }

    // Inner: a table.
    pub fn part(&self, table: Table) -> &'a [u8]
        ensures table { result.now ≡ table_of self.now (place_of table) }
        ensures framed { frame_refusal self.now ≡ 0 }
    {
        self.part_at(table as usize)
    }

    // Inner: R.
    pub fn role_count(&self) -> u8
        ensures { (result ≡ role_count self.now) × (result ≤ 8) }
    {
        self.trailer.role_count()
    }

    // Inner: the number of users.
    pub fn user_count(&self) -> usize
        ensures { (result ≡ user_count self.now) × (result ≤ 24) }
    {
        self.part(Table::Users).len() / 8
    }

    // Inner: the number of permissions.
    pub fn permission_count(&self) -> u8
        ensures { result ≡ permission_count self.now }
    {
        (self.part(Table::Permissions).len() / 2) as u8
    }

    // Inner: R and the number of permissions.
    pub fn numbers(&self) -> Numbers
        ensures { (result.roles ≡ role_count self.now) × (result.permissions ≡ permission_count self.now) }
    {
        Numbers {
            roles: self.role_count(),
            permissions: self.permission_count(),
        }
    }
}
