//! What a program has used of its limits.

ghost use Rattle.std.specs.Prelude.{◌≡◌, ◌≤◌, true, false, OnOk, OnErr, IfErr};
ghost use Rattle.zc_budget.specs.Used.{Used, IsLimit, IsWithin, HasLimits, greatest_instructions, greatest_bytes, unused, is_spent, ticked, is_over, charged};
ghost use Rattle.zc_budget.specs.declared.budget.Stop.TheVariants as stop;

use std::marker::Model;

/// The greatest limit of instructions.
pub const GREATEST_INSTRUCTIONS: u64 = 100_000_000;

/// The greatest limit of memory, in bytes.
pub const GREATEST_BYTES: u64 = 104_857_600;

/// The limit that stops a program.
#[derive(Clone, Copy, PartialEq, Eq, Debug, Drop)]
pub enum Stop {
    /// It has made as many instructions as it may.
    Instructions,
    /// It asked for more bytes than it may have.
    Memory,
}

/// The two limits of a program, and what it has used of them. Nothing is given back.
#[derive(Debug, Drop)]
pub struct Budget {
    instructions: u64,
    bytes: u64,
    most_instructions: u64,
    most_bytes: u64,
}

impl Model for Budget {
    ghost use Rattle.std.specs.Prelude.{◌≤◌};
    ghost use Rattle.zc_budget.specs.Used.{Used, IsWithin, greatest_instructions, greatest_bytes};

    ghost Value = { Used };

    ghost view = { λ b. record {
      instructions = b.instructions;
      bytes = b.bytes;
      most_instructions = b.most_instructions;
      most_bytes = b.most_bytes;
    } };

    ghost invariant = { λ b. (b.instructions ≤ b.most_instructions) × (b.bytes ≤ b.most_bytes)
        × (b.most_instructions ≤ greatest_instructions) × (b.most_bytes ≤ greatest_bytes) };
}

impl Budget {
    /// Nothing used yet, under these limits: instructions and bytes.
    pub fn new(instructions: u64, memory: u64) -> Budget
        requires instructions { IsLimit greatest_instructions instructions }
        requires memory { IsLimit greatest_bytes memory }
        ensures { result ≡ unused instructions memory }
    {
        Budget {
            instructions: 0,
            bytes: 0,
            most_instructions: instructions,
            most_bytes: memory,
        }
    }

    /// Counts one instruction more, or stops where the instructions are at their limit.
    pub fn tick(&mut self) -> Result<(), Stop>
        ensures counts { OnOk result ((is_spent self.old ≡ false) × (self.new ≡ ticked self.old)) }
        ensures stops { OnErr result ((is_spent self.old ≡ true) × (self.new ≡ self.old)) }
        ensures which { IfErr result (λ s. s ≡ stop.Instructions) }
    {
        if self.instructions == self.most_instructions {
            return Err(Stop::Instructions);
        }
        self.instructions += 1;
        Ok(())
    }

    /// Counts n bytes more, or stops where they would pass their limit.
    pub fn charge(&mut self, n: u64) -> Result<(), Stop>
        ensures counts { OnOk result ((is_over n self.old ≡ false) × (self.new ≡ charged n self.old)) }
        ensures stops { OnErr result ((is_over n self.old ≡ true) × (self.new ≡ self.old)) }
        ensures which { IfErr result (λ s. s ≡ stop.Memory) }
    {
        if n > self.most_bytes - self.bytes {
            return Err(Stop::Memory);
        }
        self.bytes += n;
        Ok(())
    }

    /// The instructions and the bytes used. They never pass their limits.
    pub fn used(&self) -> (u64, u64)
        ensures instructions { result.0 ≡ self.now.instructions }
        ensures bytes { result.1 ≡ self.now.bytes }
        ensures within { IsWithin self.now }
        ensures limits { HasLimits self.now }
    {
        (self.instructions, self.bytes)
    }
}

/// The greatest limits are 100,000,000 instructions and 100 MiB.
pub fn greatest_limits()
    ensures instructions { GREATEST_INSTRUCTIONS ≡ greatest_instructions }
    ensures bytes { GREATEST_BYTES ≡ greatest_bytes }
{}
