//! Pairs of traces: whether they are joined, and by which matching.
//!
//! A trace is written in words that put trees on a stack: `c3` and `x0` a constant and a variable, `$` and `!` a
//! neutral under an argument, linear or persistent, `#1` under a projection, `,` a pair, `<>` the unit, `\` a lambda.
//! Between `{` and `}` stand the steps, each a right side with `=` and the modes of its variables, `L` and `P`, and
//! then the entries of the tuple, each with `.` after it.
use clf_syntax::{Elim, Expr, Head, Mode, Modes, Neutral, Obj, Step, TupleEntry};
use sqlite_items::{Boxed, Items};
use std::alloc::Global;
use std::process::Abort;
use std::test::Fail;
use trace_equal::{equal, first_difference, matching};

/// The left trace, the right one, and the first matching, or `-` where there is none.
const ROWS: &str = "{ c0 =L c1 =L x1 . x0 . }|{ c1 =L c0 =L x0 . x1 . }|10
{ c0 =L c1 =L c2 =L x2 . x1 . x0 . }|{ c2 =L c0 =L c1 =L x1 . x0 . x2 . }|120
{ c0 =L c1 x0 $ =L x0 . }|{ c0 =L c1 x0 $ =L x0 . }|01
{ c0 =L c1 x0 $ =L x0 . }|{ c1 x0 $ =L c0 =L x1 . }|-
{ c0 =P c1 x0 ! =L c2 x1 ! =L x1 . x0 . }|{ c0 =P c2 x0 ! =L c1 x1 ! =L x0 . x1 . }|021
{ c0 =L c0 =L x0 . x1 . }|{ c0 =L c0 =L x1 . x0 . }|10
{ c0 =L c0 =L c1 x1 $ =L x0 . x1 . }|{ c0 =L c0 =L c1 x0 $ =L x0 . x2 . }|102
{ c0 =L c0 =L c0 =L x0 . x1 . x2 . }|{ c0 =L c0 =L c0 =L x2 . x1 . x0 . }|210
{ c3 { c0 =L c1 =L x1 . x0 . } $ =L x0 . }|{ c3 { c1 =L c0 =L x0 . x1 . } $ =L x0 . }|0
{ c3 { c0 =L c1 =L x1 . x0 . } $ =L x0 . }|{ c3 { c1 =L c0 =L x1 . x0 . } $ =L x0 . }|-
{ c4 =L c3 { c0 =L x1 . x0 . } $ =L x0 . }|{ c4 =L c3 { c0 =L x0 . x1 . } $ =L x0 . }|-
{ c4 =L c3 { c0 =L x1 . x0 . } $ =L c5 =L x1 . x0 . }|{ c5 =L c4 =L c3 { c0 =L x1 . x0 . } $ =L x0 . x2 . }|120
{ c0 = c1 =L x0 . }|{ c1 =L c0 = x0 . }|10
{ c0 = c0 = }|{ c0 = c0 = }|01
{ c0 =L c1 =L x1 . x0 . }|{ c0 =L c1 =L x0 . x1 . }|-
{ c0 <> $ =L c1 =L x1 . x0 . }|{ c1 =L c0 <> $ =L x0 . x1 . }|10
{ c0 =L x0 . }|{ c0 =P x0 . }|-
{ c0 =L x0 . }|{ c0 =L x1 . }|-
{ c0 =L x0 . }|{ c0 =L c0 = x0 . }|-
{ x0 =L x2 . x0 . }|{ x0 =L x2 . x0 . }|0
{ x0 =L x2 . x0 . }|{ x1 =L x2 . x0 . }|-
{ c0 =LL c1 x0 $ =L x0 . x2 . }|{ c0 =LL c1 x1 $ =L x0 . x2 . }|-
{ c0 x1 \\ $ =L c2 { c1 =L x1 . x0 . x3 . } \\ $ =L x1 . x0 . }|{ c2 { c1 =L x1 . x0 . x2 . } \\ $ =L c0 x2 \\ $ =L x0 . x1 . }|10
{ c0 x1 \\ $ =L c2 { c1 =L x1 . x0 . x2 . } \\ $ =L x1 . x0 . }|{ c2 { c1 =L x1 . x0 . x2 . } \\ $ =L c0 x2 \\ $ =L x0 . x1 . }|-
{ c0 =L c2 { c1 =L x1 . x0 . x2 . } \\ $ =L x0 . }|{ c0 =L c2 { c1 =L x1 . x0 . x2 . } \\ $ =L x0 . }|01
{ c0 #1 =L c0 #2 =L x1 x0 , . }|{ c0 #2 =L c0 #1 =L x0 x1 , . }|10
{ }|{ }|";

/// An expression that is being read.
#[derive(Drop)]
struct Open {
    steps: Items<Step>,
    result: Items<TupleEntry>,
}

/// What is read so far, and whether it is no trace or memory ran out.
#[derive(Drop)]
struct Reader {
    alloc: Global,
    objects: Items<Obj>,
    open: Items<Open>,
    failed: bool,
}

impl Reader {
    fn note(&mut self, done: bool) {
        if !done {
            self.failed = true;
        }
    }

    fn put(&mut self, obj: Obj) {
        let done = self.objects.push(obj).is_ok();
        self.note(done);
    }

    fn take(&mut self) -> Obj {
        match self.objects.pop() {
            Some(obj) => obj,
            None => {
                self.failed = true;
                Obj::Unit
            }
        }
    }

    fn take_neutral(&mut self) -> Neutral {
        let spine = Items::new(self.alloc);
        let obj = self.take();
        if let Obj::At { neutral } = obj {
            return neutral;
        }
        self.failed = true;
        Neutral {
            head: Head::Const(0),
            spine,
        }
    }

    fn head(&mut self, head: Head) {
        let spine = Items::new(self.alloc);
        self.put(Obj::At {
            neutral: Neutral { head, spine },
        });
    }

    fn eliminate(&mut self, act: Elim) {
        let mut neutral = self.take_neutral();
        let done = neutral.spine.push(act).is_ok();
        self.note(done);
        self.put(Obj::At { neutral });
    }

    fn apply(&mut self, mode: Mode) {
        let obj = self.take();
        self.eliminate(Elim::Arg { mode, obj });
    }

    fn boxed(&mut self) -> Option<Boxed<Obj>> {
        let obj = self.take();
        Boxed::new(self.alloc, obj).ok()
    }

    fn lambda(&mut self) {
        match self.boxed() {
            Some(body) => self.put(Obj::Lam {
                mode: Mode::Linear,
                body,
            }),
            None => self.failed = true,
        }
    }

    fn pair(&mut self) {
        let right = self.boxed();
        let left = self.boxed();
        self.put_pair(left, right);
    }

    fn put_pair(&mut self, left: Option<Boxed<Obj>>, right: Option<Boxed<Obj>>) {
        match (left, right) {
            (Some(left), Some(right)) => self.put(Obj::Pair { left, right }),
            _ => self.failed = true,
        }
    }

    fn begin(&mut self) {
        let steps = Items::new(self.alloc);
        let result = Items::new(self.alloc);
        self.reopen(Open { steps, result });
    }

    fn reopen(&mut self, open: Open) {
        let done = self.open.push(open).is_ok();
        self.note(done);
    }

    fn step(&mut self, modes: &str) {
        let mut step = Step {
            modes: Modes::empty(self.alloc),
            rhs: self.take_neutral(),
        };
        for letter in modes.as_bytes() {
            let done = step.modes.push(mode_of(*letter)).is_ok();
            self.note(done);
        }
        match self.open.pop() {
            Some(mut open) => {
                let done = open.steps.push(step).is_ok();
                self.note(done);
                self.reopen(open);
            }
            None => self.failed = true,
        }
    }

    fn entry(&mut self) {
        let entry = TupleEntry {
            mode: Mode::Linear,
            obj: self.take(),
        };
        match self.open.pop() {
            Some(mut open) => {
                let done = open.result.push(entry).is_ok();
                self.note(done);
                self.reopen(open);
            }
            None => self.failed = true,
        }
    }

    fn end(&mut self) {
        match self.open.pop() {
            Some(open) => self.put_monad(open),
            None => self.failed = true,
        }
    }

    fn put_monad(&mut self, open: Open) {
        let Open { steps, result } = open;
        match Boxed::new(self.alloc, Expr { steps, result }) {
            Ok(expr) => self.put(Obj::Mon { expr }),
            Err(_) => self.failed = true,
        }
    }

    fn word(&mut self, word: &str) {
        match word {
            "{" => self.begin(),
            "}" => self.end(),
            "." => self.entry(),
            "$" => self.apply(Mode::Linear),
            "!" => self.apply(Mode::Persistent),
            "#1" => self.eliminate(Elim::First),
            "#2" => self.eliminate(Elim::Second),
            "\\" => self.lambda(),
            "," => self.pair(),
            "<>" => self.put(Obj::Unit),
            other => self.named(other),
        }
    }

    fn named(&mut self, word: &str) {
        if let Some(modes) = word.strip_prefix("=") {
            return self.step(modes);
        }
        match head_of(word) {
            Some(head) => self.head(head),
            None => self.failed = true,
        }
    }
}

fn head_of(word: &str) -> Option<Head> {
    if let Some(number) = word.strip_prefix("c") {
        return Some(Head::Const(number.parse::<u32>().ok()?));
    }
    let number = word.strip_prefix("x")?;
    Some(Head::Var(number.parse::<u32>().ok()?))
}

fn mode_of(letter: u8) -> Mode {
    match letter {
        b'P' => Mode::Persistent,
        b'A' => Mode::Affine,
        _ => Mode::Linear,
    }
}

fn object(alloc: Global, text: &str) -> Result<Obj, Fail> {
    let mut reader = Reader {
        alloc,
        objects: Items::new(alloc),
        open: Items::new(alloc),
        failed: false,
    };
    for word in text.split_whitespace() {
        reader.word(word);
    }
    let obj = reader.take();
    if reader.failed {
        return Err("no trace, or no memory".into());
    }
    Ok(obj)
}

/// The places of a matching as digits, or `-` where there is none.
fn shown(alloc: Global, places: Option<Items<usize>>) -> Result<String, Fail> {
    let Some(places) = places else {
        return Ok(String::from_str(alloc, "-")?);
    };
    let mut text = String::new(alloc);
    for place in places.as_slice() {
        write!(text, "{place}")?;
    }
    Ok(text)
}

fn assert_row(rt: &impl Abort, alloc: Global, row: &str) -> Result<(), Fail> {
    let (left, rest) = row.split_once("|").ok_or("no right trace")?;
    let (right, wanted) = rest.split_once("|").ok_or("no answer")?;
    let left = object(alloc, left)?;
    let right = object(alloc, right)?;
    assert_eq!(rt; equal(alloc, &left, &right)?, wanted != "-", "{row}");
    assert_eq!(rt; equal(alloc, &right, &left)?, wanted != "-", "{row}");
    if let Obj::Mon { expr } = &left {
        if let Obj::Mon { expr: other } = &right {
            let found = shown(alloc, matching(alloc, expr.get(), other.get())?)?;
            assert_eq!(rt; found.as_str(), wanted, "{row}");
        }
    }
    Ok(())
}

#[test]
fn traces_with_their_matchings(rt: HostRuntime) -> Result<(), Fail> {
    let mut count = 0u32;
    for row in ROWS.lines() {
        assert_row(&rt, rt.alloc(), row)?;
        count = count.saturating_add(1);
    }
    assert_eq!(rt; count, 27);
    Ok(())
}

#[test]
fn the_first_index_that_differs(rt: HostRuntime) -> Result<(), Fail> {
    let alloc = rt.alloc();
    let mut found = Items::new(alloc);
    found.push(object(alloc, "{ c0 =L c1 =L x1 . x0 . }")?)?;
    found.push(object(alloc, "c1")?)?;
    let mut wanted = Items::new(alloc);
    wanted.push(object(alloc, "{ c1 =L c0 =L x0 . x1 . }")?)?;
    assert_eq!(rt;
        first_difference(alloc, found.as_slice(), wanted.as_slice())?,
        Some(1)
    );
    wanted.push(object(alloc, "c1")?)?;
    assert_eq!(rt;
        first_difference(alloc, found.as_slice(), wanted.as_slice())?,
        None
    );
    wanted.push(object(alloc, "c2")?)?;
    assert_eq!(rt;
        first_difference(alloc, found.as_slice(), wanted.as_slice())?,
        Some(2)
    );
    Ok(())
}
