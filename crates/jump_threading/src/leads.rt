// Code in which choices take in what is set right before them.
ghost use Rattle.std.specs.Prelude.{◌≡◌, ◌≤◌, ◌∷◌, [], ◌++◌, IfOk, length};
ghost use Rattle.kernel_code.specs.declared.syntax.KStmt.{KStmt};
ghost use Rattle.jump_threading.specs.Alike.{DoesAlike};
ghost use Rattle.jump_threading.specs.Leads.{last_of};

use crate::leading::{Sides, take_lead};
use crate::live::Live;
use kernel_code::{KExpr, KStmt, copy_expr, copy_statement, copy_statements};
use std::alloc::{AllocError, Global};
use trees::Items;

/// A statement that stands for one and for so many right before it.
#[derive(Drop)]
struct Led {
    statement: KStmt,
    lead: usize,
}

/// A choice that takes in what leads to it. Refused only for want of memory.
fn led_choice(
    alloc: Global,
    lead: &[KStmt],
    test: &KExpr,
    first: Items<KStmt>,
    second: Items<KStmt>,
) -> Result<KStmt, AllocError>
    ensures { IfOk result (λ s. s ≡ KStmt.If test.now (lead.now ++ first) (lead.now ++ second)) }
{
    let test = copy_expr(alloc, test)?;
    let mut one = copy_statements(alloc, lead)?;
    one.append(first)?;
    let mut other = copy_statements(alloc, lead)?;
    other.append(second)?;
    Ok(KStmt::If(test, one, other))
}

/// A statement whose bodies are passed, with so many of those right before it as are taken into its bodies. What may be read behind it
/// becomes what may be read before these.
#[cycle(leads)]
fn lead_statement(
    alloc: Global,
    s: &KStmt,
    before: &[KStmt],
    live: &mut Live,
) -> Result<Led, AllocError>
    ensures within { IfOk result (λ led. led.lead ≤ length before.now) }
    ensures alike { IfOk result (λ led. DoesAlike (led.statement ∷ []) (last_of led.lead before.now ++ s.now ∷ [])) }
{
    match s {
        KStmt::If(test, first, second) => {
            let mut sides = Sides::behind(alloc, live)?;
            let one = lead_code(alloc, first.as_slice(), &mut sides.first)?;
            let other = lead_code(alloc, second.as_slice(), &mut sides.second)?;
            let lead = take_lead(alloc, before, test, &mut sides)?;
            *live = sides.joined(test)?;
            let statement = led_choice(alloc, &before[before.len() - lead..], test, one, other)?;
            Ok(Led { statement, lead })
        }
        KStmt::While(kind, test, body) => {
            live.enter_loop(alloc, body.as_slice(), test)?;
            let mut inside = live.copy(alloc)?;
            let body = lead_code(alloc, body.as_slice(), &mut inside)?;
            let test = copy_expr(alloc, test)?;
            Ok(Led {
                statement: KStmt::While(*kind, test, body),
                lead: 0,
            })
        }
        _ => {
            live.pass_statement(alloc, s)?;
            let copy = copy_statement(alloc, s)?;
            Ok(Led {
                statement: copy,
                lead: 0,
            })
        }
    }
}

/// Code in which choices take in what is set right before them. What may be read behind it becomes what may be read before it. Statements
/// are passed from the last on.
#[cycle(leads)]
pub(crate) fn lead_code(
    alloc: Global,
    code: &[KStmt],
    live: &mut Live,
) -> Result<Items<KStmt>, AllocError>
    ensures { IfOk result (λ new. DoesAlike new code.now) }
{
    let mut backwards = Vec::new(alloc);
    let mut end = code.len();
    while end > 0 {
        let last = end - 1;
        let Led { statement, lead } = lead_statement(alloc, &code[last], &code[..last], live)?;
        backwards.push(statement)?;
        end = last - lead;
    }
    backwards.reverse();
    Ok(Items::from_vec(backwards))
}
