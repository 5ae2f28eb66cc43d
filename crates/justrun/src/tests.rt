//! What the program answers to arguments, inputs and outputs, some of which fault.
use crate::command::{Exit, program};
use std::alloc::{AllocError, Global};
use std::io;
use std::io::{ErrorKind, Read, Write};
use std::test::Fail;

const FIRST_RUN: &[u8] = b"--- /justfile\na: b c\nb: d\nc: d\nd:\n";

// Runs the program on arguments with blanks between them.
fn run<R: Read, W: Write, E: Write>(
    alloc: Global,
    arguments: &str,
    input: &mut R,
    output: &mut W,
    errors: &mut E,
) -> Result<Exit, AllocError> {
    let words: Vec<&str> = arguments.split_whitespace().collect(alloc)?;
    Ok(program(alloc, Some(words.as_slice()), input, output, errors))
}

// The name in an error output of one line that tells a fault, and `usage` where it tells how the program is used.
fn told(errors: &[u8]) -> &str {
    let Ok(text) = std::str::from_utf8(errors) else {
        return "no text";
    };
    let line = text.strip_suffix('\n').unwrap_or("no line");
    match line
        .strip_prefix("justrun: ")
        .unwrap_or("")
        .split_once(": ")
    {
        Some((name, message))
            if !message.is_empty() && !message.contains('\n') && !message.contains('\r') => name,
        _ => "no fault",
    }
}

#[test]
fn program_answers_arguments_and_an_input(rt: HostRuntime) -> Result<(), Fail> {
    let alloc = rt.alloc();
    let cases = [
        ("/justfile a", FIRST_RUN, 0, "d\nb\nc\na\n", ""),
        ("/justfile", FIRST_RUN, 0, "d\nb\nc\na\n", ""),
        (
            "/d/x p 1 2",
            b"--- /d/x\np x y:".as_slice(),
            0,
            "p [1] [2]\n",
            "",
        ),
        ("/justfile a nosuch", FIRST_RUN, 1, "", "UnknownRecipe"),
        ("/justfile a", b"".as_slice(), 1, "", "Load"),
        (
            "/justfile a",
            b"--- /justfile\na: b\n".as_slice(),
            1,
            "",
            "UnknownDependency",
        ),
        (
            "/justfile a",
            b"--- /justfile\nimport 'a\rb'\n".as_slice(),
            1,
            "",
            "MissingImportFile",
        ),
        (
            "/justfile a",
            b"--- /justfile\na:\r\n".as_slice(),
            1,
            "",
            "Syntax",
        ),
        ("a", b"x\n".as_slice(), 1, "", "NotClean"),
        ("/a/../justfile a", FIRST_RUN, 1, "", "NotClean"),
        ("/justfile a", b"x\n".as_slice(), 1, "", "Bundle"),
        ("/justfile", b"--- /a/../b\n".as_slice(), 1, "", "Bundle"),
        ("/justfile a", b"\xff".as_slice(), 1, "", "Bundle"),
        ("", b"\xff".as_slice(), 2, "", "usage"),
    ];
    for (arguments, input, status, output, name) in cases {
        let mut input = input;
        let mut wrote = Vec::new(alloc);
        let mut errors = Vec::new(alloc);
        let exit = run(alloc, arguments, &mut input, &mut wrote, &mut errors)?;
        assert!(rt; exit.told.is_ok(), "at {arguments:?}");
        assert_eq!(rt; exit.status, status, "at {arguments:?}");
        assert_eq!(rt; wrote.as_slice(), output.as_bytes(), "at {arguments:?}");
        if status == 0 {
            assert!(rt; errors.is_empty(), "at {arguments:?}");
        } else {
            assert_eq!(rt; told(errors.as_slice()), name, "at {arguments:?}");
        }
    }
    Ok(())
}

// Whether a run of `a` in these files ends with this fault, told on a line of the error output.
fn tells(alloc: Global, input: &[u8], fault: &str) -> Result<bool, AllocError> {
    let mut input = input;
    let mut output = Vec::new(alloc);
    let mut errors = Vec::new(alloc);
    let exit = run(alloc, "/justfile a", &mut input, &mut output, &mut errors)?;
    let line = errors.as_slice().strip_suffix(b"\n");
    let told = line.and_then(|line| line.strip_prefix(b"justrun: "));
    Ok(exit.status == 1 && told == Some(fault.as_bytes()))
}

#[test]
fn message_tells_where_to_look(rt: HostRuntime) -> Result<(), Fail> {
    let alloc = rt.alloc();
    assert!(rt;
        tells(
            alloc,
            b"--- /Justfile\n--- /justfile \n",
            "Load: Could not find the root `/justfile` among the files; like it: `/Justfile`, `/justfile `",
        )?
    );
    assert!(rt;
        tells(
            alloc,
            b"--- /d/justfile\n",
            "Load: Could not find the root `/justfile` among the files",
        )?
    );
    assert!(rt;
        tells(
            alloc,
            b"--- /justfile\nimport 'b'\n--- /b\na:\n\nimport './justfile'\n",
            "CircularImport: File `/b` leads back to itself: it imports `/justfile`, or has it as the file of a module; see line 3 of `/b`",
        )?
    );
    assert!(rt;
        tells(
            alloc,
            b"--- /justfile\nmod m '~/m'\n",
            "Homedir: The path of an import or of a module begins with `~/`, and no home folder is known; see line 1 of `/justfile`",
        )?
    );
    assert!(rt;
        tells(
            alloc,
            b"--- /justfile\nmod m\n--- /m.just\na:\n\nmod m\n",
            "CircularImport: File `/m.just` leads back to itself: it imports `/m.just`, or has it as the file of a module; see line 3 of `/m.just`",
        )?
    );
    assert!(rt;
        tells(
            alloc,
            b"--- /a\nimport '~/x'\n--- /justfile\nimport 'z'\n--- /z\n\nimport? '~/x'\n",
            "Homedir: The path of an import or of a module begins with `~/`, and no home folder is known; see line 2 of `/z`",
        )?
    );
    Ok(())
}

#[test]
fn argument_that_is_no_text_is_usage(rt: HostRuntime) {
    let mut input = FIRST_RUN;
    let mut output = Vec::new(rt.alloc());
    let mut errors = Vec::new(rt.alloc());
    let exit = program(rt.alloc(), None, &mut input, &mut output, &mut errors);
    assert_eq!(rt; exit.status, 2);
    assert!(rt; output.is_empty());
    assert_eq!(rt; told(errors.as_slice()), "usage");
}

// A reader that gives these bytes, and then faults.
#[derive(Drop)]
struct Breaking<'a>(&'a [u8]);

impl<'a> Read for Breaking<'a> {
    fn read(&mut self, buf: &mut [u8]) -> io::Result<usize> {
        if self.0.is_empty() {
            return Err(io::Error::from(ErrorKind::ConnectionReset));
        }
        let count = self.0.len().min(buf.len());
        let (front, rest) = self.0.split_at(count);
        buf[..count].copy_from_slice(front);
        self.0 = rest;
        Ok(count)
    }
}

#[test]
fn input_that_cannot_be_read(rt: HostRuntime) -> Result<(), Fail> {
    let alloc = rt.alloc();
    for front in [b"".as_slice(), b"x".as_slice(), FIRST_RUN] {
        let mut output = Vec::new(alloc);
        let mut errors = Vec::new(alloc);
        let mut input = Breaking(front);
        let exit = run(alloc, "/justfile a", &mut input, &mut output, &mut errors)?;
        assert_eq!(rt; exit.status, 1);
        assert!(rt; output.is_empty());
        assert_eq!(rt; told(errors.as_slice()), "Bundle");
    }
    Ok(())
}

// A writer that takes so many bytes, one at a time, and then faults. It faults at each flush.
#[derive(Drop)]
struct Full(usize);

impl Write for Full {
    fn write(&mut self, buf: &[u8]) -> io::Result<usize> {
        if self.0 == 0 {
            return Err(io::Error::from(ErrorKind::BrokenPipe));
        }
        self.0 -= 1;
        Ok(buf.len().min(1))
    }

    fn flush(&mut self) -> io::Result<()> {
        Err(io::Error::from(ErrorKind::BrokenPipe))
    }
}

#[test]
fn output_that_faults(rt: HostRuntime) -> Result<(), Fail> {
    let alloc = rt.alloc();
    // The first write, one in the midst, and the flush after all eight bytes. A fault of the run is told before it.
    let cases = [
        (0, "/justfile a", "Write"),
        (5, "/justfile a", "Write"),
        (8, "/justfile a", "Write"),
        (0, "/justfile a nosuch", "UnknownRecipe"),
    ];
    for (room, arguments, name) in cases {
        let mut input = FIRST_RUN;
        let mut errors = Vec::new(alloc);
        let exit = run(alloc, arguments, &mut input, &mut Full(room), &mut errors)?;
        assert_eq!(rt; exit.status, 1, "with room for {room}");
        assert_eq!(rt; told(errors.as_slice()), name, "with room for {room}");
    }
    Ok(())
}

#[test]
fn fault_of_the_error_output_is_ignored(rt: HostRuntime) -> Result<(), Fail> {
    let alloc = rt.alloc();
    for (arguments, want) in [("", 2), ("a", 1), ("/justfile nosuch", 1)] {
        for room in [0, 3] {
            let mut input = FIRST_RUN;
            let mut output = Vec::new(alloc);
            let exit = run(alloc, arguments, &mut input, &mut output, &mut Full(room))?;
            assert_eq!(rt; exit.status, want, "at {arguments:?}");
            assert!(rt; exit.told.is_err(), "at {arguments:?}");
            assert!(rt; output.is_empty(), "at {arguments:?}");
        }
    }
    Ok(())
}
