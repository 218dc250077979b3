ghost use Rattle.std.specs.Prelude.{◌≡◌, ◌↔◌, IfOk, IfSome, IsTrue, is_none, true};
ghost use Rattle.vm_journal.specs.declared.entry.What.TheVariants.{Done, Served};
ghost use Rattle.pager_model.specs.OfConfig.{MapsRight};
ghost use Rattle.shadow_pager.specs.Shown.{shown};
ghost use Rattle.log_check.specs.Replies.{CanAnswer, IsRightReply, ShowsAsFlat};

use shadow_flat::PageBytes;
use shadow_pager::ShadowPager;
use vm_journal::{Entry, What};
use vm_types::{Answer, Config, NoMemory, Proc, Ref, Reply, Service};

/// Whether they are the same reply.
fn is_same(one: Reply, other: Reply) -> bool
    ensures { IsTrue result ↔ (one ≡ other) }
{
    one == other
}

/// The flat machine's reply, if the reply isn't that. The bytes of pages go on to the next state.
fn right_reply(
    bytes: &mut PageBytes,
    config: &Config,
    pager: &ShadowPager,
    process: Proc,
    r: Ref,
    reply: Reply,
) -> Result<Option<Reply>, NoMemory>
    requires can { CanAnswer (Done r reply) }
    requires maps { MapsRight config.now (shown pager.now).pager.map }
    ensures shows { IfOk result (λ o. ShowsAsFlat config.now (shown pager.now).pager bytes.old bytes.new process.0 (Done r reply) (is_none o)) }
    ensures right { IfOk result (λ o. IfSome o (IsRightReply config.now (shown pager.now).pager bytes.old process.0 (Done r reply))) }
{
    let right = bytes.answer(config, pager, process, r)?;
    if is_same(reply, right) {
        Ok(None)
    } else {
        Ok(Some(right))
    }
}

/// The bytes of pages go on with a service.
fn serves(
    bytes: &mut PageBytes,
    config: &Config,
    pager: &ShadowPager,
    process: Proc,
    s: Service,
    answer: Answer,
)
    requires { CanAnswer (Served s answer) }
    ensures { ShowsAsFlat config.now (shown pager.now).pager bytes.old bytes.new process.0 (Served s answer) true }
{
    if let Answer::Good = answer {
        bytes.change(process, s);
    }
}

/// The flat machine's reply, if an entry shows another value; if it shows none or that, the bytes of pages go on to
/// the state after the entry. The pager has the flat machine's maps and touched pages.
///
/// # Errors
/// `NoMemory` if a page has no place, or if out of memory; the bytes are then not to be used again.
pub(crate) fn other_reply(
    bytes: &mut PageBytes,
    config: &Config,
    pager: &ShadowPager,
    e: Entry,
) -> Result<Option<Reply>, NoMemory>
    requires can { CanAnswer e.what }
    requires maps { MapsRight config.now (shown pager.now).pager.map }
    ensures shows { IfOk result (λ o. ShowsAsFlat config.now (shown pager.now).pager bytes.old bytes.new (e.seat).0 e.what (is_none o)) }
    ensures right { IfOk result (λ o. IfSome o (IsRightReply config.now (shown pager.now).pager bytes.old (e.seat).0 e.what)) }
{
    let process = Proc(e.seat.0);
    match e.what {
        What::Done { r, reply } => right_reply(bytes, config, pager, process, r, reply),
        What::Served { s, answer } => {
            serves(bytes, config, pager, process, s, answer);
            Ok(None)
        }
        _ => Ok(None),
    }
}
