// Two scripts, one behind the other, parted by a line `--`.
ghost use Rattle.std.specs.Prelude.{◌≡◌, ◌↔◌, [], None, Ok, Err, IfOk, OnErr, IsErrOf, MatchResult, is_some, unwrap_or, vec_items, option_map};
ghost use Rattle.lines.specs.Unreadables.{unreadable};
ghost use Rattle.script.specs.declared.untaken.Untaken.TheVariants.{Unreadable, OutOfMemory};
ghost use Rattle.script.specs.Pairs.{Pair, parts, with_call, taken};

use crate::command::Command;
use crate::untaken::Untaken;
use calls::call::Call;
use lines::asked::Asked;
use std::alloc::{AllocError, Global};
use std::marker::Model;

// The second is there from the line that parts them on.
#[derive(Drop)]
pub struct Scripts {
    first: Vec<Call>,
    second: Option<Vec<Call>>,
}

// Contracts speak of the calls.
impl Model for Scripts {
    ghost Value = { Pair };

    ghost view = { λ s. record { first = vec_items s.first; second = option_map vec_items s.second } };
}

impl Scripts {
    pub fn new(heap: Global) -> Scripts
        ensures { result ≡ record { first = []; second = None } }
    {
        Scripts {
            first: Vec::new(heap),
            second: None,
        }
    }

    pub fn first(&self) -> &[Call]
        ensures { result.now ≡ self.now.first }
    {
        &self.first
    }

    // The calls behind the line `--`: none before it was read.
    pub fn second(&self) -> &[Call]
        ensures { result.now ≡ unwrap_or self.now.second [] }
    {
        match &self.second {
            Some(second) => second,
            None => &[],
        }
    }

    // Whether the line `--` was read.
    pub fn is_parted(&self) -> bool
        ensures { result ≡ is_some self.now.second }
    {
        self.second.is_some()
    }

    // One call more of the script that is being read.
    fn add(&mut self, call: Call) -> Result<(), AllocError>
        ensures { MatchResult result (λ _. self.new ≡ with_call call self.old) (λ _. self.new ≡ self.old) }
    {
        match &mut self.second {
            Some(second) => second.push(call)?,
            None => self.first.push(call)?,
        }
        Ok(())
    }

    // Whether the line parts the scripts. A second such line does not.
    fn parts(&self, line: &str) -> bool
        ensures { result ≡ parts line.now self.now }
    {
        !self.is_parted() && line == "--"
    }

    // One line more. A question changes nothing, and is passed over. A line that is not taken leaves the scripts as they were.
    pub fn take(&mut self, line: &str) -> Result<(), Untaken>
        ensures ok { IfOk result (λ _. taken line.now self.old ≡ Ok self.new) }
        ensures unreadable { IsErrOf result Unreadable ↔ (taken line.now self.old ≡ Err unreadable) }
        ensures err { OnErr result (self.new ≡ self.old) }
    {
        if self.parts(line) {
            self.second = Some(Vec::new(*self.first.allocator()));
            return Ok(());
        }
        if let Some(Command::Call(call)) = Command::read(line)? {
            self.add(call)?;
        }
        Ok(())
    }
}
