//! Counts the tokens or the items of a file, runs all agents of a file's problem, hands one agent many messages, or
//! appends many lines to a file: the program that `bench/run.sh` times.
#![tactic(auto)]

ghost use Rattle.std.specs.Prelude.{◌<◌, ◌≤◌, length};

mod appends;
mod driver;
mod network;
mod problem;
mod runs;

use appends::append_lines;
use driver::Counts;
use fzn_item::items;
use fzn_model::problem_of;
use fzn_token::tokens;
use network::run_network;
use problem::{built, let_go};
use runs::{mixed, quiet};
use std::alloc::Global;
use std::{env, fs};

/// What the words ask one agent to be handed; `None` where memory runs out.
fn run(alloc: Global, messages: u32, kept: Option<u32>) -> Option<Counts> {
    let problem = built(alloc)?;
    let counts = match kept {
        None => mixed(alloc, &problem, messages),
        Some(kept) => quiet(alloc, &problem, messages, kept),
    };
    let_go(problem);
    counts
}

/// How many nogoods the words ask the agent to keep first, if they ask for that.
fn kept_of(words: &[String]) -> anyhow::Result<Option<u32>>
    requires { 2 < length words.now }
{
    if words[1].as_str() == "agent" {
        return Ok(None);
    }
    if words.len() == 3 {
        return Ok(Some(0));
    }
    Ok(Some(words[3].parse::<u32>()?))
}

/// Hands one agent messages, and prints the counts.
fn time_agent(rt: HostRuntime, messages: u32, kept: Option<u32>) -> anyhow::Result<()> {
    let Some(counts) = run(rt.alloc(), messages, kept) else {
        println!(rt; "out of memory, or no such values")?;
        return Ok(());
    };
    println!(rt;
        "{} messages received, {} values taken",
        counts.received, counts.taken
    )?;
    println!(rt;
        "{} steps made, {} messages sent",
        counts.steps, counts.sent
    )?;
    Ok(())
}

/// Appends so many lines to a file.
fn time_appends(rt: HostRuntime, lines: u32) -> anyhow::Result<()> {
    if append_lines(rt.alloc(), rt, rt.stdout(), lines) {
        println!(rt; "{} lines appended", lines)?;
    } else {
        println!(rt; "a write failed")?;
    }
    Ok(())
}

/// Runs all agents of the text's problem.
fn time_network(rt: HostRuntime, text: Vec<u8>) -> anyhow::Result<()>
    requires { length text.items ≤ 16777216 }
{
    let Ok(problem) = problem_of(rt.alloc(), text) else {
        println!(rt; "no problem")?;
        return Ok(());
    };
    let ran = run_network(rt.alloc(), &problem);
    let_go(problem);
    match ran {
        Some((deliveries, end)) => println!(rt; "{} deliveries, {:?}", deliveries, end)?,
        None => println!(rt; "out of memory")?,
    }
    Ok(())
}

/// How many tokens the text has, if it has tokens.
fn tokens_in(alloc: Global, text: &[u8]) -> Option<usize>
    requires { length text.now ≤ 16777216 }
{
    let list = tokens(alloc, text).ok()?;
    Some(list.len())
}

/// How many tokens and items the text has; no items where they can not be read, and nothing without tokens.
fn items_in(alloc: Global, text: &[u8]) -> Option<(usize, Option<usize>)>
    requires { length text.now ≤ 16777216 }
{
    let list = tokens(alloc, text).ok()?;
    let all = items(alloc, text, &list).ok();
    Some((list.len(), all.map(|all| all.len())))
}

/// Counts the tokens of the text.
fn time_tokens(rt: HostRuntime, text: &[u8]) -> anyhow::Result<()>
    requires { length text.now ≤ 16777216 }
{
    match tokens_in(rt.alloc(), text) {
        Some(count) => println!(rt; "{} tokens", count)?,
        None => println!(rt; "no tokens")?,
    }
    Ok(())
}

/// Counts the tokens and the items of the text.
fn time_items(rt: HostRuntime, text: &[u8]) -> anyhow::Result<()>
    requires { length text.now ≤ 16777216 }
{
    match items_in(rt.alloc(), text) {
        Some((tokens, Some(items))) => println!(rt; "{} tokens, {} items", tokens, items)?,
        Some((_, None)) => println!(rt; "no items")?,
        None => println!(rt; "no tokens")?,
    }
    Ok(())
}

/// Times this part over the file.
fn time_file(rt: HostRuntime, part: &str, name: &str) -> anyhow::Result<()> {
    let text = fs::read(&rt, name)?;
    if text.len() > 16_777_216 {
        println!(rt; "too long")?;
        return Ok(());
    }
    match part {
        "network" => time_network(rt, text),
        "tokens" => time_tokens(rt, &text),
        _ => time_items(rt, &text),
    }
}

/// Times the part that the words name.
fn time_part(rt: HostRuntime, words: &[String]) -> anyhow::Result<()>
    requires { 2 < length words.now }
{
    match words[1].as_str() {
        "agent" | "quiet" => time_agent(rt, words[2].parse::<u32>()?, kept_of(words)?),
        "appends" => time_appends(rt, words[2].parse::<u32>()?),
        part => time_file(rt, part, words[2].as_str()),
    }
}

fn main(rt: HostRuntime) -> anyhow::Result<()> {
    let words: Vec<String> = env::args(&rt)?.collect(rt.alloc())?;
    if words.len() < 3 {
        println!(rt;
            "usage: bench_parts tokens|items|network FILE, agent MESSAGES, quiet MESSAGES KEPT, or appends LINES"
        )?;
        return Ok(());
    }
    time_part(rt, &words)
}
