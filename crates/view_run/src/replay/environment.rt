//! What the environment does: timers expire, and the script is heard.

ghost use Rattle.std.specs.Prelude.{◌≡◌};
ghost use Rattle.view_run.specs.Finder.{job_of};

use crate::replay::finder::Finder;
use run_order::Heard;
use sdl_system::Target;
use std::alloc::AllocError;

impl<'r, 's> Finder<'r, 's> {
    /// Does all that is due.
    pub fn do_environment(&mut self) -> Result<(), AllocError>
        ensures { job_of self.new ≡ job_of self.old }
    {
        self.expire_all()?;
        self.hear_all()
    }

    /// All timers expire that are due.
    fn expire_all(&mut self) -> Result<(), AllocError>
        ensures { job_of self.new ≡ job_of self.old }
    {
        for _ in 0..u64::MAX {
            let Some(receiver) = self.chronicle.expire()? else {
                break;
            };
            self.pass_put(receiver)?;
        }
        Ok(())
    }

    /// All lines are heard whose time has come.
    fn hear_all(&mut self) -> Result<(), AllocError>
        ensures { job_of self.new ≡ job_of self.old }
    {
        for _ in 0..u64::MAX {
            if !self.hear_next()? {
                break;
            }
        }
        Ok(())
    }

    /// The next line is heard. False: none is to be heard now.
    fn hear_next(&mut self) -> Result<bool, AllocError>
        ensures { job_of self.new ≡ job_of self.old }
    {
        match self.chronicle.hear()? {
            Heard::Nothing => Ok(false),
            Heard::Time => Ok(true),
            Heard::Signal(target) => {
                self.pass_heard(target)?;
                Ok(true)
            }
        }
    }

    /// A signal of the script is heard. It is gone where nobody has the number.
    fn pass_heard(&mut self, target: Target) -> Result<(), AllocError>
        ensures { job_of self.new ≡ job_of self.old }
    {
        let Target::Instance(receiver) = target else {
            return Ok(());
        };
        if !self.chronicle.replay().is_there(receiver) {
            return Ok(());
        }
        self.pass_put(receiver)
    }
}
