ghost use Rattle.std.specs.Prelude.{◌≡◌, ◌+◌, ◌-◌, ◌^◌, ◌<◌, ◌≤◌};
ghost use Rattle.pf_window.specs.Window.{release_of, deadline_of, bit_of};

use pf_weight::weight::Weight;
use std::marker::Model;

/// The windows of a task's subtasks, one after another: what the calls of this crate give of one subtask, and of the
/// next by additions, without a division.
#[derive(Clone, Copy, Debug)]
pub struct Windows {
    weight: Weight,
    /// The subtask's number, from 1.
    sub: u32,
    /// floor((sub - 1) * period / cost).
    release: u64,
    /// floor(sub * period / cost).
    floor: u64,
    /// sub * period mod cost.
    rest: u32,
    /// floor(period / cost).
    step: u32,
    /// period mod cost.
    part: u32,
}

impl Model for Windows {
    ghost use Rattle.pf_window.specs.Windows.{Windowed, AreWindows};

    ghost Value = { Windowed };

    ghost view = { λ w. record { weight = w.weight; sub = w.sub } };

    ghost use Rattle.std.specs.Prelude.{◌-◌, ◌*◌, ◌/◌, ◌%◌};

    ghost invariant = { λ w. AreWindows w.weight w.sub w.release w.floor w.rest w.step w.part };

    ghost inverse = { λ v. record {
      weight = v.weight;
      sub = v.sub;
      release = (v.sub - 1) * v.weight.period / v.weight.cost;
      floor = v.sub * v.weight.period / v.weight.cost;
      rest = v.sub * v.weight.period % v.weight.cost;
      step = v.weight.period / v.weight.cost;
      part = v.weight.period % v.weight.cost;
    } };

    ghost inverse_ok = { λ w h k. record { weight = w.weight; sub = w.sub; release = h.released k; floor = h.whole k; rest = h.left k; step = h.periods k; part = h.over k } };
}

impl Windows {
    /// The windows of this weight, at subtask i, 1 to 2^24.
    pub fn at(weight: Weight, i: u32) -> Self
        requires first { 1 ≤ i }
        requires last { i ≤ 2 ^ 24 }
        ensures { result ≡ record { weight = weight; sub = i } }
    {
        let cost = weight.cost();
        let period = weight.period();
        let work = u64::from(i) * period;
        Windows {
            weight,
            sub: i,
            release: (work - period) / cost,
            floor: work / cost,
            rest: (work % cost) as u32,
            step: (period / cost) as u32,
            part: (period % cost) as u32,
        }
    }

    /// Goes on to the next subtask.
    pub fn advance(&mut self)
        requires { self.old.sub < 2 ^ 32 - 1 }
        ensures { self.new ≡ record { weight = self.old.weight; sub = self.old.sub + 1 } }
    {
        let cost = self.weight.cost() as u32;
        let rest = self.rest + self.part;
        self.sub += 1;
        self.release = self.floor;
        if rest < cost {
            self.floor += u64::from(self.step);
            self.rest = rest;
        } else {
            self.floor += u64::from(self.step) + 1;
            self.rest = rest - cost;
        }
    }

    /// The weight.
    pub fn weight(&self) -> Weight
        ensures { result ≡ self.now.weight }
    {
        self.weight
    }

    /// The subtask's number, from 1.
    pub fn sub(&self) -> u32
        ensures value { result ≡ self.now.sub }
        ensures first { 1 ≤ result }
    {
        self.sub
    }

    /// The subtask's release, as `release` gives it.
    pub fn release(&self) -> u64
        ensures value { result ≡ release_of self.now.weight self.now.sub }
        ensures bound { result < 2 ^ 62 }
    {
        self.release
    }

    /// The subtask's deadline, as `deadline` gives it.
    pub fn deadline(&self) -> u64
        ensures value { result ≡ deadline_of self.now.weight self.now.sub }
        ensures bound { result ≤ 2 ^ 62 }
    {
        if self.rest == 0 {
            self.floor
        } else {
            self.floor + 1
        }
    }

    /// The subtask's bit, as `bit` gives it.
    pub fn bit(&self) -> u64
        ensures { result ≡ bit_of self.now.weight self.now.sub }
    {
        if self.rest == 0 { 0 } else { 1 }
    }
}
