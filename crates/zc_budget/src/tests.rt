ghost use Rattle.std.specs.Prelude.{◌≡◌, ◌<◌, ◌+◌};

use crate::{Budget, Steps, Stop};
use std::marker::Brand;
use std::sync::ledger::{Blank, Ledger};

#[test]
fn stops_at_the_limits() {
    let mut budget = Budget::new(1, 24);
    prove!(budget.charge(24) == Ok(()));
    prove!(budget.charge(1) == Err(Stop::Memory));
    prove!(budget.tick() == Ok(()));
    prove!(budget.tick() == Err(Stop::Instructions));
    prove!(budget.used() == (1, 24));
}

#[test]
fn takes_the_greatest_limits() {
    let mut budget = Budget::new(100_000_000, 104_857_600);
    prove!(budget.charge(104_857_601) == Err(Stop::Memory));
    prove!(budget.charge(104_857_600) == Ok(()));
    prove!(budget.used() == (0, 104_857_600));
}

fn counted<L: Ledger>(blank: Blank)
    requires name { blank.name ≡ L.name }
    requires parts { blank.parts ≡ L.parts }
    requires some { 0 < blank.parts }
{
    let mut steps: Steps<L> = Steps::new(blank);
    steps.tick();
}

#[test]
fn counts_a_step() {
    counted::<Brand>(Blank::new(1));
}
