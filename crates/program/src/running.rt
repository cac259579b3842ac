// Runs a program to its end.
ghost use Rattle.std.specs.Prelude.{◌≡◌, ◌⊎◌, ◌↔◌, drop, List, ℕ, Ok, IsOk, OnOk};
ghost use Rattle.std.specs.Process.{exit_status};
ghost use Rattle.std.specs.Vec.Iter.{into_iter_items};
ghost use Rattle.program.specs.Words.{Asks};
ghost use Rattle.program.specs.declared.words.Wish.TheVariants.{Help};

use crate::words::{Wish, wish_of};
use anyhow::{Context, anyhow};
use std::env::Args;
use std::io::Read;
use std::process::ExitCode;
use std::{fs, io};

// What a program is called, and what it says when it is asked for help.
#[derive(Clone, Copy)]
pub struct Program<'a> {
    pub name: &'a str,
    pub help: &'a str,
}

impl<'a> Program<'a> {
    // Gives help, or does the work with the bytes of the file that the words name, or of standard input. It goes well only if one of the two did.
    fn obey<F: FnOnce(&HostRuntime, &[u8]) -> anyhow::Result<()>>(
        &self,
        rt: &HostRuntime,
        words: io::Result<Args>,
        work: F,
    ) -> anyhow::Result<()>
        requires { F.IsAlwaysCallable work }
        ensures { OnOk result ((ws : _) × (words ≡ Ok ws) × ((Asks (drop 1 (into_iter_items ws)) (Ok Help)) ⊎ ((bytes : _) × F.post work rt.entry bytes (Ok tt)))) }
    {
        let name = self.name;
        let wish = wish_of(words?).map_err(|e| anyhow!("{e}; see {name} --help"))?;
        let bytes = match wish {
            Wish::Help => return Ok(rt.print(self.help)?),
            Wish::File(path) => fs::read(rt, path.as_str()).context(path)?,
            Wish::Input => {
                let mut bytes = Vec::new(rt.alloc());
                let _n = rt.stdin().read_to_end(&mut bytes)?;
                bytes
            }
        };
        work(rt, bytes.as_slice())
    }

    // Does the work that the words ask for, or says on standard error why it can't be done.
    pub fn run<F: FnOnce(&HostRuntime, &[u8]) -> anyhow::Result<()>>(
        &self,
        rt: &HostRuntime,
        words: io::Result<Args>,
        work: F,
    ) -> ExitCode
        requires { F.IsAlwaysCallable work }
        ensures { exit_status result ≡ 0 → (ws : _) × (words ≡ Ok ws) × ((Asks (drop 1 (into_iter_items ws)) (Ok Help)) ⊎ ((bytes : _) × F.post work rt.entry bytes (Ok tt))) }
    {
        self.end(rt, self.obey(rt, words, work))
    }

    // How it ends: if it didn't go well, standard error says why.
    pub fn end(&self, rt: &HostRuntime, went: anyhow::Result<()>) -> ExitCode
        ensures { (exit_status result ≡ 0) ↔ IsOk went }
    {
        let Err(e) = went else {
            return ExitCode::SUCCESS;
        };
        let name = self.name;
        let _ = eprintln!(rt; "{name}: {e:#}");
        ExitCode::FAILURE
    }
}
