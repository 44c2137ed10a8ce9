//! The setup of a document.

ghost use Rattle.std.specs.Prelude.{◌≡◌, IfOk};
ghost use Rattle.zp_tree.specs.WellFormed.{IsWellFormed};
ghost use Rattle.zp_tree.specs.Commands.{check_of, change_of};
ghost use Rattle.zc_doc.specs.Reading.{Gives, ok_map};
ghost use Rattle.zc_doc.specs.Setup.{set_up};

use crate::DocError;
use std::alloc::Global;
use zc_io::NoMemory;
use zp_changes::apply;
use zp_checks::check;
use zp_names::Command;
use zp_tree::Datasets;

/// Does a command in group 0 where its check passes, and gives the error number of the check.
#[tactic(auto, using(zp_tree::proofs::Passing::zero_passes))]
fn do_command<T: Datasets>(
    alloc: Global,
    tree: &mut T,
    command: &Command,
    now: u64,
) -> Result<u32, NoMemory>
    requires { IsWellFormed (T.tree tree.old) }
    ensures errno { IfOk result (λ errno. errno ≡ (check_of (T.tree tree.old) command.now).errno) }
    ensures done { IfOk result (λ errno. errno ≡ 0 → T.tree tree.new ≡ change_of (T.tree tree.old) command.now 0 now) }
    ensures well { IsWellFormed (T.tree tree.new) }
{
    let verdict = check(alloc, tree, command)?;
    if verdict.errno != 0 {
        return Ok(verdict.errno);
    }
    apply(alloc, tree, command, 0, now)?;
    Ok(0)
}

/// The tree after these commands, done one after the other in group 0, or the first of them whose
/// check has an error number.
pub(crate) fn set_up<T: Datasets>(
    alloc: Global,
    mut tree: T,
    commands: &[Command],
    now: u64,
) -> Result<T, DocError>
    requires { IsWellFormed (T.tree tree) }
    ensures gives { Gives (ok_map T.tree result) (set_up now 0 (T.tree tree) commands.now) }
    ensures well { IfOk result (λ done. IsWellFormed (T.tree done)) }
{
    for (place, command) in commands.iter().enumerate() {
        let errno = do_command(alloc, &mut tree, command, now)?;
        if errno != 0 {
            return Err(DocError::SetupRefused(place as u64, errno));
        }
    }
    Ok(tree)
}
