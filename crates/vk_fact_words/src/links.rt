ghost use Rattle.std.specs.Prelude.{◌≡◌, ◌++◌, OnOk, IfOk, string_bytes};
ghost use Rattle.vk_fact_words.specs.LinksText as text;

use crate::facts::push_after;
use std::alloc::{AllocError, Global};
use vk_hazards::{Links, Missing, Placed};

/// Adds what is said of links.
fn push_links(out: &mut String, links: &Links<'_>) -> Result<(), AllocError>
    ensures { OnOk result (string_bytes out.new ≡ string_bytes out.old ++ text.links_text links.now) }
{
    push_missing(out, links)?;
    push_nodes(out, links)
}

fn push_missing(out: &mut String, links: &Links<'_>) -> Result<(), AllocError>
    ensures { OnOk result (string_bytes out.new ≡ string_bytes out.old ++ text.missing_part links.now) }
{
    out.push_str("missing: ")?;
    out.push_str(missing_name(links.missing))
}

fn missing_name(missing: Missing) -> &'static str
    ensures { result.now ≡ text.missing_text missing }
{
    match missing {
        Missing::Flush => "a flush of the byte after the host's write",
        Missing::Submit => "a submit after the host's write",
        Missing::Available => "a dependency that makes the write available",
        Missing::Order => "a dependency that orders the two accesses",
        Missing::Visible => "a dependency that makes the write visible to the later access",
        Missing::Wait => "a wait by the host",
        Missing::Invalidation => "an invalidation of the byte before the host's read",
    }
}

fn push_nodes(out: &mut String, links: &Links<'_>) -> Result<(), AllocError>
    ensures { OnOk result (string_bytes out.new ≡ string_bytes out.old ++ (text.available_part links.now ++ text.visible_part links.now)) }
{
    push_available(out, links)?;
    push_visible(out, links)
}

fn push_available(out: &mut String, links: &Links<'_>) -> Result<(), AllocError>
    ensures { OnOk result (string_bytes out.new ≡ string_bytes out.old ++ text.available_part links.now) }
{
    push_node(out, "; flushed by ", &links.flush)?;
    push_node(out, "; made available by ", &links.available)
}

fn push_visible(out: &mut String, links: &Links<'_>) -> Result<(), AllocError>
    ensures { OnOk result (string_bytes out.new ≡ string_bytes out.old ++ text.visible_part links.now) }
{
    push_node(out, "; made visible to the host by ", &links.visible)?;
    push_node(out, "; in time for this access: ", &links.awaited)
}

fn push_node(out: &mut String, words: &str, node: &Option<Placed<'_>>) -> Result<(), AllocError>
    ensures { OnOk result (string_bytes out.new ≡ string_bytes out.old ++ text.node_text words.now node.now) }
{
    match node {
        None => Ok(()),
        Some(placed) => push_after(out, words, &placed.row.point),
    }
}

/// The line with links, where they are reported.
pub fn links_line(alloc: Global, links: &Option<Links<'_>>) -> Result<String, AllocError>
    ensures { IfOk result (λ line. string_bytes line ≡ text.links_line links.now) }
{
    let mut line = String::new(alloc);
    if let Some(links) = links {
        line.push_str("  ")?;
        push_links(&mut line, links)?;
        line.push_str("\n")?;
    }
    Ok(line)
}

/// The member with links, where they are reported.
pub fn links_member(alloc: Global, links: &Option<Links<'_>>) -> Result<String, AllocError>
    ensures { IfOk result (λ member. string_bytes member ≡ text.links_member links.now) }
{
    let mut member = String::new(alloc);
    if let Some(links) = links {
        member.push_str(",\"links\":\"")?;
        push_links(&mut member, links)?;
        member.push_str("\"")?;
    }
    Ok(member)
}
