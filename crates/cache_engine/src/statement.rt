//! What a line does behind the work that is due: the question for the schema, and the statement.

ghost use Rattle.std.specs.Prelude.{◌≡◌, IfErr, IfOk, None, Some, false};
ghost use Rattle.row_types.specs.declared.rule.Refused.TheVariants as refused;
ghost use Rattle.cache_tier.specs.TierStates.{Tier as AbstractTier};
ghost use Rattle.cache_tier.specs.Definitions.{text_of};
ghost use Rattle.sql_subset.specs.declared.stmt.CreateGroup.{CreateGroup};
ghost use Rattle.sql_subset.specs.declared.stmt.Stmt.TheVariants as statements;
ghost use Rattle.cache_tier.specs.Undone.{is_undone, is_undone_request, is_undone_statement};
ghost use Rattle.sql_subset.specs.declared.request.Line.TheVariants as says;
ghost use Rattle.stored_tier.specs.Answering.{IsSessionOf};
ghost use Rattle.stored_tier.specs.Performing.{Executes, IsCausedOver, reply_of};
ghost use Rattle.session_engine.specs.Doubting.{EndsInOver, EndsOver, IsReady};
ghost use Rattle.cache_engine.specs.Serving.{AsksAndDoes, DoesAdmitted};
ghost use Rattle.stored_tier.specs.Stored.{IsSound, IsStoredAs};

use crate::calling::call_procedure;
use crate::define::definition_text;
use crate::schema::ask_schema;
use crate::serving::serve_console;
use cache_tier::reply::Reply;
use dynamic_loads::querying::run_query;
use dynamic_loads::writing::run_write;
use dynamic_loads::{
    alter_group, create_group, drop_group, load_group, refresh_group, unload_group,
};
use outside::Site;
use row_types::Refused;
use session_engine::at_once::commit_transaction;
use session_engine::doubt::Doubt;
use session_engine::resting::{close_session, flush_group, open_session, roll_back};
use sql_subset::request::{Line, Request};
use sql_subset::stmt::Stmt;
use std::alloc::Global;
use stored_tier::tier::Tier;
use tier_base::{Label, SessionId};
use tier_journal::TierJournal;
use tier_statements::{done, refuse};

/// Answers a line that is admitted, where nothing is in doubt: the bank is asked for the schema where the line wants
/// it, and the line does what it says. A COMMIT whose call failed leaves its ticket in doubt, and so does a write that
/// is passed on.
pub(crate) fn answer_line<P: Site>(
    tier: &mut Tier,
    doubt: &mut Option<Doubt>,
    alloc: Global,
    site: &mut P,
    journal: &mut Option<TierJournal>,
    line: Line,
) -> Reply
    requires sound { IsSound tier.old }
    requires free { doubt.old ≡ None }
    requires done { is_undone line ≡ false }
    ensures performs { EndsOver P.Disk.state P.Disk.possible tier.old tier.new doubt.new journal.old journal.new
        site.old site.new (Some result) (λ w w'. AsksAndDoes line w w' result) }
    ensures sound { IsSound tier.new }
    ensures ready { IsReady tier.new doubt.new }
    ensures cause { IsCausedOver journal.old
        (P.Disk.state site.old)
        (P.Disk.state site.new)
        result }
{
    match ask_schema(tier, alloc, site, &line) {
        Err(reply) => reply,
        Ok(()) => match do_line(tier, doubt, alloc, site, journal, line) {
            Ok(reply) => reply,
            Err(refused) => refuse(alloc, refused),
        },
    }
}

// A session's request, the console's, or the sum of the clock's additions.
fn do_line<P: Site>(
    tier: &mut Tier,
    doubt: &mut Option<Doubt>,
    alloc: Global,
    site: &mut P,
    journal: &mut Option<TierJournal>,
    line: Line,
) -> Result<Reply, Refused>
    requires sound { IsSound tier.old }
    requires free { doubt.old ≡ None }
    requires done { is_undone line ≡ false }
    ensures performs { EndsOver P.Disk.state P.Disk.possible tier.old tier.new doubt.new journal.old journal.new
        site.old site.new (Some (reply_of result)) (λ w w'. DoesAdmitted line w w' (reply_of result)) }
    ensures sound { IsSound tier.new }
    ensures ready { IsReady tier.new doubt.new }
    ensures cause { IsCausedOver journal.old
        (P.Disk.state site.old)
        (P.Disk.state site.new)
        (reply_of result) }
{
    match line {
        Line::Session(label, request) => {
            do_request(tier, doubt, alloc, site, journal, &label, request)
        },
        Line::Console(request) => serve_console(tier, alloc, site, &request),
        Line::Clock(_) => Ok(done(alloc, tier.clock.added)),
    }
}

// OPEN, CLOSE, or a statement of the session of a label.
fn do_request<P: Site>(
    tier: &mut Tier,
    doubt: &mut Option<Doubt>,
    alloc: Global,
    site: &mut P,
    journal: &mut Option<TierJournal>,
    label: &Label,
    request: Request,
) -> Result<Reply, Refused>
    requires sound { IsSound tier.old }
    requires free { doubt.old ≡ None }
    requires done { is_undone_request request ≡ false }
    ensures performs { EndsOver P.Disk.state P.Disk.possible tier.old tier.new doubt.new journal.old journal.new
        site.old site.new (Some (reply_of result))
        (λ w w'. DoesAdmitted (says.Session label.now request) w w' (reply_of result)) }
    ensures sound { IsSound tier.new }
    ensures ready { IsReady tier.new doubt.new }
    ensures cause { IsCausedOver journal.old
        (P.Disk.state site.old)
        (P.Disk.state site.new)
        (reply_of result) }
{
    match request {
        Request::Open(options) => open_session(tier, alloc, label, options),
        Request::Close => {
            let id = admitted(tier, alloc, label)?;
            close_session(tier, alloc, id)
        }
        Request::Statement(statement) => {
            let id = admitted(tier, alloc, label)?;
            let text = definition_text(alloc, &statement)?;
            execute(
                tier,
                doubt,
                alloc,
                site,
                journal,
                id,
                statement,
                text.as_bytes(),
            )
        }
    }
}

// The number of the session of a label. That there is one was judged before the due work; here memory is said to be
// wanting where there is none.
fn admitted(tier: &Tier, alloc: Global, label: &Label) -> Result<SessionId, Refused>
    ensures found { IfOk result (λ id. (a : AbstractTier) → IsStoredAs tier.now a
        → IsSessionOf tier.now a label.now id) }
    ensures wants { IfErr result (λ error. error ≡ refused.Memory) }
{
    match tier.session(alloc, label) {
        Ok(id) => Ok(id),
        Err(_) => Err(Refused::Memory),
    }
}

// What the statement of a session asks for. The text is that of a definition. Indexes aren't done yet.
fn execute<P: Site>(
    tier: &mut Tier,
    doubt: &mut Option<Doubt>,
    alloc: Global,
    site: &mut P,
    journal: &mut Option<TierJournal>,
    id: SessionId,
    statement: Stmt,
    text: &[u8],
) -> Result<Reply, Refused>
    requires sound { IsSound tier.old }
    requires free { doubt.old ≡ None }
    requires text { (d : CreateGroup) → statement ≡ statements.CreateGroup d → text.now ≡ text_of d }
    requires done { is_undone_statement statement ≡ false }
    ensures performs { EndsInOver P.Disk.state P.Disk.possible tier.old tier.new doubt.new journal.old journal.new
        site.old site.new id (Executes statement) result }
    ensures sound { IsSound tier.new }
    ensures ready { IsReady tier.new doubt.new }
    ensures cause { IsCausedOver journal.old
        (P.Disk.state site.old)
        (P.Disk.state site.new)
        (reply_of result) }
{
    match statement {
        Stmt::Select(query) => run_query(tier, alloc, site, journal, id, &query),
        Stmt::Write(write) => run_write(tier, alloc, site, journal, id, &write, doubt),
        Stmt::CreateGroup(group) => { create_group(tier, alloc, site, journal, id, group, text) }
        Stmt::Load(load) => load_group(tier, alloc, site, journal, id, &load),
        Stmt::Refresh(load) => refresh_group(tier, alloc, site, journal, id, &load),
        Stmt::Unload(unload) => unload_group(tier, alloc, site, journal, id, &unload),
        Stmt::Flush(flush) => flush_group(tier, alloc, id, &flush),
        Stmt::Alter(alter) => alter_group(tier, alloc, site, journal, id, &alter),
        Stmt::DropGroup(name) => drop_group(tier, alloc, site, journal, id, &name),
        Stmt::Call(call) => call_procedure(tier, alloc, site, journal, id, &call),
        Stmt::Commit => commit_transaction(tier, alloc, site, journal, id, doubt),
        Stmt::Rollback => roll_back(tier, alloc, id),
        Stmt::CreateIndex(_) => unreachable!(),
        Stmt::DropIndex(_) => unreachable!(),
    }
}
