// Reservations, at most one for each processor.
ghost use Rattle.std.specs.Prelude.{◌≡◌, ◌<◌, length, slice_set, None, IfOk, replicate};
ghost use Rattle.ax_store.specs.Links.{link_of};
ghost use Rattle.ax_store.specs.Reservations.{left_of, stands_for};

use crate::entry::Reservation;
use std::alloc::{AllocError, Global};
use std::marker::Model;

/// A reservation for each processor.
#[derive(Drop)]
pub struct Links {
    links: Vec<Option<Reservation>>,
}

impl Model for Links {
    ghost use Rattle.std.specs.Prelude.{List, Option};
    ghost use Rattle.ax_store.specs.declared.entry.Reservation.{Reservation};

    ghost Value = { List (Option Reservation) };

    ghost view = { λ l. l.links.items };
}

fn left(link: Option<Reservation>, p: usize, a: u64, n: u8, q: usize) -> Option<Reservation>
    ensures { result ≡ left_of p a n q link }
{
    match link {
        Some(r) => {
            let line = r.address / 64;
            if q != p
                && a / 64 <= line
                && line as u128 <= (a as u128 + n as u128).saturating_sub(1) / 64
            {
                None
            } else {
                Some(r)
            }
        }
        None => None,
    }
}

impl Links {
    /// No reservations of n processors.
    pub fn new(alloc: Global, n: usize) -> Result<Links, AllocError>
        ensures { IfOk result (λ l. l ≡ replicate n None) }
    {
        let mut links: Vec<Option<Reservation>> = Vec::new(alloc);
        for _i in 0..n {
            links.push(None)?;
        }
        Ok(Links { links })
    }

    /// A write by p ends the reservations of others that it reaches.
    pub fn end_others(&mut self, p: usize, a: u64, n: u8)
        ensures links { link_of self.new ≡ (λ q. left_of p a n q (link_of self.old q)) }
        ensures count { length self.new ≡ length self.old }
    {
        for q in 0..self.count() {
            let link = left(self.get(q), p, a, n, q);
            self.set(q, link);
        }
    }

    pub fn count(&self) -> usize
        ensures { result ≡ length self.now }
    {
        self.links.len()
    }

    pub fn set(&mut self, p: usize, link: Option<Reservation>)
        requires { p < length self.old }
        ensures { self.new ≡ slice_set self.old p link }
    {
        self.links[p] = link;
    }

    pub fn get(&self, p: usize) -> Option<Reservation>
        requires { p < length self.now }
        ensures { result ≡ link_of self.now p }
    {
        self.links[p]
    }
}

/// Was it begun by a linked load of this address and size?
pub fn fits(link: Option<Reservation>, a: u64, n: u8) -> bool
    ensures { result ≡ stands_for a n link }
{
    match link {
        Some(r) => r.address == a && r.bytes == n,
        None => false,
    }
}
