//! Runs of the generated programs.
ghost use Rattle.std.specs.Prelude.{◌≤◌};

use crate::told::{Last, Told, is, sink};
use ec_commands_compile::run_generated;
use ec_emu::{Ask, Hook, Hooked};
use ec_io::MemSink;
use std::alloc::{AllocError, Global};

// Whether the generated program for a number runs. No port has a hook, so none is asked.
fn runs(alloc: Global, n: u16, out: &mut MemSink) -> bool
    requires some { 1 ≤ n }
    requires most { n ≤ 2_000 }
{
    let mut hooks = Hooked {
        hook: Hook::new(|ask: Ask| ask.last, Last),
    };
    run_generated(alloc, n, out, &mut hooks).is_ok()
}

// What it prints.
fn printed(alloc: Global, n: u16) -> Told
    requires some { 1 ≤ n }
    requires most { n ≤ 2_000 }
{
    let mut out = sink(alloc, 1_000)?;
    let ok = runs(alloc, n, &mut out);
    match str::from_utf8(out.text().as_slice()) {
        Ok(text) => format!(in alloc; "{ok} {text}"),
        Err(_) => Err(AllocError),
    }
}

// The sum of the last digits of the numbers below n, and n hundredths, which saturate below 1, in 64ths.
fn sum(n: u16) -> u64 {
    let n = u64::from(n);
    let tens = 45 * (n / 10);
    let rest = n % 10;
    let digits = if rest == 0 { 0 } else { rest * (rest - 1) / 2 };
    tens + digits + (327 * n).min(32_767) * 64 / 32_768
}

fn wanted(alloc: Global, n: u16) -> Told {
    let sum = sum(n);
    format!(in alloc; "true result {sum}\nwrites {n}\n")
}

// Whether it prints that.
fn is_right(alloc: Global, n: u16) -> bool
    requires some { 1 ≤ n }
    requires most { n ≤ 2_000 }
{
    match wanted(alloc, n) {
        Ok(want) => is(printed(alloc, n), want.as_str()),
        Err(_) => false,
    }
}

#[test]
fn runs_generated_programs(rt: HostRuntime) {
    for n in 1..111 {
        assert!(rt; is_right(rt.alloc(), n), "at {n}");
    }
    for k in 2..21 {
        assert!(rt; is_right(rt.alloc(), 100 * k), "at {k} hundred");
    }
    assert!(rt; is_right(rt.alloc(), 1_999));
}
