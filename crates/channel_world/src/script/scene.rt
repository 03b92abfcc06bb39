//! One command of a script. The scene owns the world and the table of names; the text of the script outlives both.
ghost use Rattle.std.specs.Prelude.{◌≡◌, ◌<◌, ◌≤◌, ◌+◌, ◌^◌, length, false, Ok, Err, IfOk, IfErr, OnOk};
ghost use Rattle.std.specs.List.{list_all};
ghost use Rattle.channel_world_model.specs.Refusal.{refusal};
ghost use Rattle.channel_world_language.specs.Asked.{used, given, lives, is_known, is_given_before, with_given, call_of};
ghost use Rattle.channel_world.specs.Script.{checked, answered, obeyed, settles};
ghost use Rattle.channel_world_language.specs.Said.{said, said_line};
ghost use Rattle.channel_world.specs.Staged.{scene_of};
ghost use Rattle.channel_world.specs.View.{at_rest, IsQuiet};

use crate::world::World;
use channel_world_language::call::{call_of, given, used};
use channel_world_language::command::{Command, Line};
use channel_world_language::table::{Named, Table};
use channel_world_language::text::{add_answer, add_number, add_poll, add_refused, part_before};
use channel_world_model::call::Call;
use channel_world_model::refusal::WorldRefusal;
use std::alloc::AllocError;

/// A channel, and the names that its script gave.
#[derive(Drop)]
pub struct Scene<'a> {
    pub world: World<u64>,
    pub table: Table<'a>,
}

/// Whether something lives under what was named. The call is not made: a world refuses it as one of an unknown name exactly if nothing
/// lives there.
fn lives(world: &World<u64>, named: Named) -> bool
    requires { IsQuiet world.now }
    ensures { result ≡ lives (at_rest world.now).names named }
{
    let why = match named {
        Named::Handle(handle) => world.refusal(&Call::Close { handle }),
        Named::Op(op) => world.refusal(&Call::Poll { op }),
    };
    why != Some(WorldRefusal::UnknownName)
}

impl<'a> Scene<'a> {
    /// Whether the name was given to something that lives.
    fn is_known(&self, name: &[u8]) -> bool
        requires { IsQuiet self.now.world }
        ensures { result ≡ is_known (at_rest self.now.world).names self.now.table name.now }
    {
        match self.table.get(name) {
            Some(named) => lives(&self.world, named),
            None => false,
        }
    }

    /// Whether all names that a command uses were given to something that lives.
    fn are_known(&self, command: &Command<'_>) -> bool
        requires { IsQuiet self.now.world }
        ensures { result ≡ list_all (is_known (at_rest self.now.world).names self.now.table) (used (said command.now)) }
    {
        let (first, second) = used(command);
        match second {
            Some(second) => self.is_known(first) && self.is_known(second),
            None => self.is_known(first),
        }
    }

    /// Whether the name that a command gives was given before.
    fn is_given_before(&self, command: &Command<'_>) -> bool
        ensures { result ≡ is_given_before self.now.table (said command.now) }
    {
        match given(command) {
            Some((name, _)) => self.table.has(name),
            None => false,
        }
    }

    /// Why a command has no call: a name that it uses was not given to something that lives, or is of the wrong sort.
    fn why_uncalled(&self, command: &Command<'_>) -> WorldRefusal
        requires quiet { IsQuiet self.now.world }
        requires uncalled { call_of self.now.table (said command.now) ≡ None }
        ensures { checked (scene_of self.now) (said command.now) ≡ Err result }
    {
        if self.are_known(command) {
            WorldRefusal::WrongKind
        } else {
            WorldRefusal::UnknownName
        }
    }

    /// The call of a command that is not refused; or the first reason why it is. Each name is looked up once: if a call uses what no longer
    /// lives, the world says so.
    fn check(&self, command: &Command<'_>) -> Result<Call<u64>, WorldRefusal>
        requires quiet { IsQuiet self.now.world }
        requires few { length self.now.table < 2 ^ 32 }
        ensures call { IfOk result (λ c. checked (scene_of self.now) (said command.now) ≡ Ok c) }
        ensures why { IfErr result (λ w. checked (scene_of self.now) (said command.now) ≡ Err w) }
        ensures accepted { IfOk result (λ c. refusal (at_rest self.now.world) c ≡ None) }
        ensures new { OnOk result (is_given_before self.now.table (said command.now) ≡ false) }
    {
        let Some(call) = call_of(&self.table, command) else {
            return Err(self.why_uncalled(command));
        };
        if let Some(why) = self.world.refusal(&call) {
            return Err(why);
        }
        if self.is_given_before(command) {
            return Err(WorldRefusal::NameTaken);
        }
        Ok(call)
    }

    /// Gives the new name of an accepted command. If memory is refused nothing is known of the names.
    fn give(&mut self, command: &Command<'a>) -> Result<(), AllocError>
        requires new { is_given_before self.old.table (said command.now) ≡ false }
        requires few { length self.old.table < 2 ^ 32 }
        ensures table { OnOk result (self.new.table ≡ with_given self.old.table (said command.now)) }
        ensures world { self.new.world ≡ self.old.world }
    {
        match given(command) {
            Some((name, sort)) => self.table.give(name, sort),
            None => Ok(()),
        }
    }

    /// Makes the call of a command, and writes its reply line in place of what stands there.
    fn make(
        &mut self,
        command: &Command<'a>,
        call: Call<u64>,
        line: &mut Vec<u8>,
    ) -> Result<(), AllocError>
        requires quiet { IsQuiet self.old.world }
        requires accepted { refusal (at_rest self.old.world) call ≡ None }
        requires new { is_given_before self.old.table (said command.now) ≡ false }
        requires few { length self.old.table < 2 ^ 32 }
        ensures line { OnOk result (record { after = scene_of self.new; line = line.new.items } ≡ answered (scene_of self.old) (said command.now) call) }
        ensures quiet { IsQuiet self.new.world }
    {
        let Ok(done) = self.world.answer(call) else {
            return Err(AllocError);
        };
        line.clear();
        add_answer(&self.table, &done, line)?;
        self.give(command)?;
        Ok(())
    }

    /// Makes the call that a command says, if it is not refused, and writes its reply line. If memory or serials are refused nothing is
    /// known of the scene.
    fn call(&mut self, command: &Command<'a>, line: &mut Vec<u8>) -> Result<(), AllocError>
        requires quiet { IsQuiet self.old.world }
        requires few { length self.old.table < 2 ^ 32 }
        ensures line { OnOk result (record { after = scene_of self.new; line = line.new.items } ≡ obeyed (scene_of self.old) (said command.now)) }
        ensures names { OnOk result (length self.new.table ≤ length self.old.table + 1) }
        ensures quiet { IsQuiet self.new.world }
    {
        match self.check(command) {
            Ok(call) => self.make(command, call, line),
            Err(why) => {
                line.clear();
                add_refused(why, line)
            }
        }
    }

    /// Settles, and writes the reply line. If memory or serials are refused nothing is known of the scene.
    fn settle(&mut self, line: &mut Vec<u8>) -> Result<(), AllocError>
        requires quiet { IsQuiet self.old.world }
        ensures line { OnOk result (record { after = scene_of self.new; line = line.new.items } ≡ settles (scene_of self.old)) }
        ensures names { self.new.table ≡ self.old.table }
        ensures quiet { IsQuiet self.new.world }
    {
        let Ok(settled) = self.world.settle() else {
            return Err(AllocError);
        };
        let polls = settled.as_slice();
        line.clear();
        add_number(b"polls ", polls.len() as u64, line)?;
        for (k, poll) in polls.iter().enumerate() {
            line.extend_from_slice(part_before(k))?;
            add_poll(&self.table, poll.name, &poll.reply, line)?;
        }
        Ok(())
    }

    /// Does what a line says, and writes its reply line in place of what is there. If memory or serials are refused nothing is known of the
    /// scene.
    pub fn obey(&mut self, line: &Line<'a>, reply: &mut Vec<u8>) -> Result<(), AllocError>
        requires quiet { IsQuiet self.old.world }
        requires few { length self.old.table < 2 ^ 32 }
        ensures line { OnOk result (record { after = scene_of self.new; line = reply.new.items } ≡ obeyed (scene_of self.old) (said_line line.now)) }
        ensures names { OnOk result (length self.new.table ≤ length self.old.table + 1) }
        ensures quiet { IsQuiet self.new.world }
    {
        match line {
            Line::Call(command) => self.call(command, reply),
            Line::Settle => self.settle(reply),
        }
    }
}
