// A digest under way, FIPS 180-4, sections 5.3.3 and 6.2.2.
ghost use Rattle.std.specs.Prelude.{◌≡◌};
ghost use Rattle.sha256.specs.Constants.{initial};
ghost use Rattle.sha256.specs.Hash.{round, rounds, compress, state_record};

use crate::constants::K;
use crate::schedule::schedule;
use crate::word::{big_sigma0, big_sigma1, ch, maj};
use words::Record;

// The hash value, or the working variables.
#[derive(Clone, Copy)]
pub struct State {
    pub a: u32,
    pub b: u32,
    pub c: u32,
    pub d: u32,
    pub e: u32,
    pub f: u32,
    pub g: u32,
    pub h: u32,
}

impl State {
    // The initial hash value.
    pub fn new() -> Self
        ensures { result ≡ initial }
    {
        State {
            a: 0x6a09_e667,
            b: 0xbb67_ae85,
            c: 0x3c6e_f372,
            d: 0xa54f_f53a,
            e: 0x510e_527f,
            f: 0x9b05_688c,
            g: 0x1f83_d9ab,
            h: 0x5be0_cd19,
        }
    }

    // One round, of the constant k and the word w.
    fn round(mut self, k: u32, w: u32) -> Self
        ensures { result ≡ round self k w }
    {
        let t1 = self
            .h
            .wrapping_add(big_sigma1(self.e))
            .wrapping_add(ch(self.e, self.f, self.g))
            .wrapping_add(k)
            .wrapping_add(w);
        let t2 = big_sigma0(self.a).wrapping_add(maj(self.a, self.b, self.c));
        self.h = self.g;
        self.g = self.f;
        self.f = self.e;
        self.e = self.d.wrapping_add(t1);
        self.d = self.c;
        self.c = self.b;
        self.b = self.a;
        self.a = t1.wrapping_add(t2);
        self
    }

    // The 64 rounds over the schedule w, two to a turn, which spares moves between registers.
    fn rounds(mut self, w: &[u32; 64]) -> Self
        ensures { result ≡ rounds w.now self 64 }
    {
        for t in 0..32 {
            self = self.round(K[2 * t], w[2 * t]);
            self = self.round(K[2 * t + 1], w[2 * t + 1]);
        }
        self
    }

    // The state after one more block, given as its sixteen words.
    pub fn absorb(mut self, m: &[u32; 16]) -> Self
        ensures { result ≡ compress self m.now }
    {
        let w = schedule(m);
        let v = self.rounds(&w);
        self.a = v.a.wrapping_add(self.a);
        self.b = v.b.wrapping_add(self.b);
        self.c = v.c.wrapping_add(self.c);
        self.d = v.d.wrapping_add(self.d);
        self.e = v.e.wrapping_add(self.e);
        self.f = v.f.wrapping_add(self.f);
        self.g = v.g.wrapping_add(self.g);
        self.h = v.h.wrapping_add(self.h);
        self
    }

    // The hash value as a record of its words.
    pub fn hash_value(self) -> Record
        ensures { result ≡ state_record self }
    {
        Record {
            w0: self.a,
            w1: self.b,
            w2: self.c,
            w3: self.d,
            w4: self.e,
            w5: self.f,
            w6: self.g,
            w7: self.h,
        }
    }
}
