ghost use Rattle.std.specs.Prelude.{◌≡◌, ◌++◌, IfOk, OnOk, codes, option_map, string_bytes};
ghost use Rattle.vk_emit.specs.Programs as spec;

use crate::planning::Plan;
use std::alloc::{AllocError, Global};
use vk_model::Sequence;
use vk_row_text::{push_bytes, push_steps};
use vk_trace::Outcome;
use vk_words::{push_at, push_number};

/// The text in C of a plan, with this header in it, or a line that includes it. The only error is want
/// of memory.
pub fn program_text(
    alloc: Global,
    plan: &Plan<'_>,
    header: Option<&[u8]>,
) -> Result<Vec<u8>, AllocError>
    ensures { IfOk result (λ text. text.items ≡ spec.program_of (option_map (λ h. h.now) header.entry) plan.now) }
{
    let title = title_of(alloc, &plan.outcome)?;
    let tables = tables_of(alloc, plan)?;
    let mut out = Vec::new(alloc);
    out.extend_from_slice(title.as_bytes())?;
    out.extend_from_slice(header_or_line(header))?;
    out.extend_from_slice(tables.as_bytes())?;
    Ok(out)
}

/// A header, or the line that includes it.
fn header_or_line(header: Option<&[u8]>) -> &[u8]
    ensures { result.now ≡ spec.header_text (option_map (λ h. h.now) header.entry) }
{
    match header {
        Some(header) => header,
        None => b"#include \"zw_drive.h\"\n",
    }
}

/// The comment at the beginning.
fn title_of(alloc: Global, outcome: &Outcome) -> Result<String, AllocError>
    ensures { IfOk result (λ title. string_bytes title ≡ spec.title_text outcome.now) }
{
    let mut out = String::from_str(alloc, "// A trace of Vulkan transfers: a row for each call")?;
    push_promise(&mut out, outcome)?;
    out.push_str("//     cc main.c -lvulkan && ./a.out    # --help says more\n")?;
    Ok(out)
}

/// Adds what is promised of the reads, and up to where.
fn push_promise(out: &mut String, outcome: &Outcome) -> Result<(), AllocError>
    ensures { OnOk result (string_bytes out.new ≡ string_bytes out.old ++ spec.promise_text outcome.now) }
{
    match outcome {
        Outcome::Reads(_, stop) => {
            out.push_str(", and the bytes that its reads have to give.\n")?;
            push_stop(out, *stop)
        }
        Outcome::Refused(_, _) => {
            out.push_str(". It breaks a rule: nothing is promised of its reads.\n")
        }
    }
}

/// Adds which entry finds no room, if one does.
fn push_stop(out: &mut String, stop: Option<usize>) -> Result<(), AllocError>
    ensures { OnOk result (string_bytes out.new ≡ string_bytes out.old ++ spec.stop_text stop) }
{
    let Some(stop) = stop else {
        return Ok(());
    };
    out.push_str("// Entry ")?;
    push_number(out, stop)?;
    out.push_str(" of the trace finds no room: what comes before it is performed.\n")
}

/// The rows of a plan, its bytes, and the function that performs them.
fn tables_of(alloc: Global, plan: &Plan<'_>) -> Result<String, AllocError>
    ensures { IfOk result (λ text. string_bytes text ≡ spec.tables_text plan.now) }
{
    let mut out = String::from_str(alloc, "\nstatic const ZwWord zw_trace[] = {\n")?;
    push_steps(alloc, &mut out, plan.steps.as_slice())?;
    out.push_str(between())?;
    push_bytes(&mut out, plan.steps.as_slice(), promised_by(&plan.outcome))?;
    out.push_str(behind())?;
    push_fault(&mut out, &plan.outcome)?;
    out.push_str(");\n}\n")?;
    Ok(out)
}

/// What stands between rows and bytes.
fn between() -> &'static str
    ensures { result.now ≡ spec.between }
{
    "    END_TRACE\n};\n\n\
    // The bytes of writes, of updates and of reads, in the order of their rows.\n\
    static const char *const zw_bytes[] = {\n"
}

/// What stands behind the bytes.
fn behind() -> &'static str
    ensures { result.now ≡ spec.behind }
{
    "    0};\n\nint main(int argc, char **argv) {\n    \
    return zw_main(argc, argv, zw_trace, zw_bytes, "
}

/// The reads of an outcome, with their entries.
fn promised_by(outcome: &Outcome) -> &[(usize, Sequence<u8>)]
    ensures { result.now ≡ spec.promised_by outcome.now }
{
    match outcome {
        Outcome::Reads(reads, _) => reads.as_slice(),
        Outcome::Refused(_, _) => &[],
    }
}

/// Adds the fault as a text in C, or 0 where there is none.
fn push_fault(out: &mut String, outcome: &Outcome) -> Result<(), AllocError>
    ensures { OnOk result (string_bytes out.new ≡ string_bytes out.old ++ spec.fault_text outcome.now) }
{
    match outcome {
        Outcome::Reads(_, _) => out.push_str("0"),
        Outcome::Refused(at, rule) => {
            out.push_str("\"")?;
            push_at(out, *at)?;
            out.push_str(" ")?;
            out.push_str(rule.name())?;
            out.push_str("\"")
        }
    }
}
