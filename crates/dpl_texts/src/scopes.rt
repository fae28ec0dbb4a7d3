// Names in sight, as scopes open and close: what is found of a name, and in which slot.
// Scripts are words: `(` opens a scope and `)` closes one, a name with `?` is asked for, and one without is declared.

use dpl_scopes::{Scopes, Sort};
use std::alloc::Global;
use std::process::Abort;

// What is found of the names that a script asks for, and behind ` <- ` the script: the depth and the slot of the innermost
// declaration, and `!` where that is in the innermost scope, or `-`.
const SCRIPTS: &str = "\
- 1/1! 1/2! - 1/1 2/4! 1/2 2/5! 1/1! - <- a? a ab a? ab? b? ( a? a b a? ab? b? ) a? b?\n\
1/2! 1/2 2/5! 1/2! - <- a a a? ( a? a a a? ) a? ) a?\n\
0/1! 1/2! 0/1 - <- ) ) a b a? b? ( a? ) ) a?\n\
2/4! 1/2 <- ) a b ( a a? b?\n\
3/5! 2/3 1/1! <- a ( a ( a a? ) ( a? ) ) a?";

// Does what a word of a script says.
fn follow<'t>(rt: &impl Abort, scopes: &mut Scopes<'t>, word: &'t str) {
    if word == ")" {
        scopes.leave();
        return;
    }
    let done = if word == "(" {
        scopes.enter()
    } else {
        scopes.declare(word.as_bytes(), Sort::Variable, None)
    };
    done.expect(rt, "memory");
}

// What is found of a name.
fn found(rt: &impl Abort, alloc: Global, scopes: &Scopes<'_>, name: &str) -> String {
    let here = if scopes.declared_here(name.as_bytes()) {
        "!"
    } else {
        ""
    };
    let shown = match scopes.lookup(name.as_bytes()) {
        Some(declared) => {
            let depth = declared.origin.depth;
            let slot = declared.slot;
            format!(in alloc; " {depth}/{slot}{here}")
        }
        None => format!(in alloc; " -{here}"),
    };
    shown.expect(rt, "memory")
}

#[test]
fn scripts(rt: HostRuntime) {
    for line in SCRIPTS.lines() {
        let (wanted, script) = line.split_once(" <- ").unwrap_or((line, ""));
        let mut scopes = Scopes::new(rt.alloc()).expect(&rt, "memory");
        let mut all = String::new(rt.alloc());
        for word in script.split_whitespace() {
            match word.strip_suffix("?") {
                Some(name) => {
                    let one = found(&rt, rt.alloc(), &scopes, name);
                    all.push_str(one.as_str()).expect(&rt, "memory");
                }
                None => follow(&rt, &mut scopes, word),
            }
        }
        assert_eq!(rt; all.as_str().trim_start(), wanted);
    }
}

// Declares each pair of bytes as a name.
fn declare_pairs<'t>(rt: &impl Abort, scopes: &mut Scopes<'t>, text: &'t [u8]) {
    for name in text.chunks(2) {
        scopes
            .declare(name, Sort::Variable, None)
            .expect(rt, "memory");
    }
}

// Each pair of bytes is seen at this depth.
fn sees(rt: &impl Abort, scopes: &Scopes<'_>, text: &[u8], depth: Option<usize>) {
    for name in text.chunks(2) {
        let found = scopes.lookup(name).map(|declared| declared.origin.depth);
        assert_eq!(rt; found, depth);
    }
}

// As many names as a program may have, in two scopes.
#[test]
fn many_names(rt: HostRuntime) {
    let mut text = Vec::new(rt.alloc());
    for high in 0..64u8 {
        for low in 0..64u8 {
            text.push(high).expect(&rt, "memory");
            text.push(low).expect(&rt, "memory");
        }
    }
    let mut scopes = Scopes::new(rt.alloc()).expect(&rt, "memory");
    declare_pairs(&rt, &mut scopes, &text);
    scopes.enter().expect(&rt, "memory");
    declare_pairs(&rt, &mut scopes, &text);
    sees(&rt, &scopes, &text, Some(2));
    scopes.leave();
    sees(&rt, &scopes, &text, Some(1));
    sees(&rt, &scopes, &[64, 0], None);
    scopes.leave();
    sees(&rt, &scopes, &text, None);
}

// Under `rt try --test --fail-alloc N` the Nth growth is refused: what is refused leaves the scopes as they were, and is done
// when it is asked for again.
#[test]
fn a_growth_refused(rt: HostRuntime) {
    let made = Scopes::new(rt.alloc());
    let mut scopes = match made {
        Ok(scopes) => scopes,
        Err(_) => Scopes::new(rt.alloc()).expect(&rt, "memory"),
    };
    for depth in 1..9usize {
        let before = depth.checked_sub(1).filter(|before| *before != 0);
        if scopes.declare(b"a", Sort::Variable, None).is_err() {
            sees(&rt, &scopes, b"a", before);
            follow(&rt, &mut scopes, "a");
        }
        sees(&rt, &scopes, b"a", Some(depth));
        if scopes.enter().is_err() {
            assert_eq!(rt; scopes.depth(), depth);
            sees(&rt, &scopes, b"a", Some(depth));
            follow(&rt, &mut scopes, "(");
        }
        assert_eq!(rt; scopes.depth(), depth + 1);
    }
}
