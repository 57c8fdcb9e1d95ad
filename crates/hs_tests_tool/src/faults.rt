use hs_io::{Files, MemFiles, MemSink, Sink, SureFiles, SureSink};
use hs_tool::run_tool;
use std::alloc::{AllocError, Global};
use std::test::Fail;
use std::thread::Threads;

// The file `a` with these bytes.
fn one_file(alloc: Global, bytes: &[u8]) -> Result<Vec<(String, Vec<u8>)>, AllocError> {
    let name = String::from_str(alloc, "a")?;
    Ok(vec![in alloc; (name, bytes.to_vec(alloc)?)]?)
}

// The status of `sleek a`.
fn status<H: Threads + Sync>(
    rt: &H,
    alloc: Global,
    files: &mut impl Files,
    sink: &mut impl Sink,
) -> Result<u8, AllocError> {
    let sleek = String::from_str(alloc, "sleek")?;
    let name = String::from_str(alloc, "a")?;
    let words = vec![in alloc; sleek, name]?;
    Ok(run_tool(rt, alloc, &words, files, sink, &|_number: u32| {}))
}

#[test]
fn bytes_that_are_no_text_are_refused(rt: HostRuntime) -> Result<(), Fail> {
    let alloc = rt.alloc();
    let cases: [(&[u8], &str); 2] = [
        (b"\xff", "refused: byte 0: not UTF-8\n"),
        (b"a \xff", "refused: byte 2: not UTF-8\n"),
    ];
    for (bytes, text) in cases {
        let mut files = SureFiles::new(one_file(alloc, bytes)?);
        let mut sink = SureSink::new(alloc);
        assert_eq!(rt; status(&rt, alloc, &mut files, &mut sink)?, 2);
        assert_eq!(rt; sink.written(), text.as_bytes());
    }
    Ok(())
}

#[test]
fn a_failing_fetch_is_a_file_fault(rt: HostRuntime) -> Result<(), Fail> {
    let alloc = rt.alloc();
    let mut files = MemFiles::new(one_file(alloc, b"entail emp |- emp;")?, vec![in alloc; 1]?);
    let mut sink = SureSink::new(alloc);
    assert_eq!(rt; status(&rt, alloc, &mut files, &mut sink)?, 4);
    assert_eq!(rt; sink.written(), b"fault: file a\n".as_slice());
    Ok(())
}

#[test]
fn a_failing_second_fetch_is_a_fault_of_that_file(rt: HostRuntime) -> Result<(), Fail> {
    let alloc = rt.alloc();
    let source = (
        String::from_str(alloc, "a")?,
        b"method f() requires".to_vec(alloc)?,
    );
    let heap = (
        String::from_str(alloc, "h")?,
        b"heap 1\nargs\n".to_vec(alloc)?,
    );
    let mut files = MemFiles::new(vec![in alloc; source, heap]?, vec![in alloc; 2]?);
    let mut sink = SureSink::new(alloc);
    let mut words = Vec::new(alloc);
    for word in ["run", "a", "f", "h"] {
        words.push(String::from_str(alloc, word)?)?;
    }
    let status = run_tool(
        &rt,
        alloc,
        &words,
        &mut files,
        &mut sink,
        &|_number: u32| {},
    );
    assert_eq!(rt; status, 4);
    assert_eq!(rt; sink.written(), b"fault: file h\n".as_slice());
    Ok(())
}

#[test]
fn a_failing_put_leaves_the_front(rt: HostRuntime) -> Result<(), Fail> {
    let alloc = rt.alloc();
    let mut files = SureFiles::new(one_file(alloc, b"entail emp |- emp;")?);
    let mut sink = MemSink::new(alloc, vec![in alloc; 2]?, 10);
    assert_eq!(rt; status(&rt, alloc, &mut files, &mut sink)?, 5);
    assert_eq!(rt; sink.written(), b"entail 1: ".as_slice());
    Ok(())
}

#[test]
fn a_source_has_at_most_its_limit(rt: HostRuntime) -> Result<(), Fail> {
    let alloc = rt.alloc();
    let cases: [(usize, u8, &str); 2] = [
        (1_048_577, 2, "refused: file too large\n"),
        (1_048_576, 0, "summary: preds 0/0, entailments 0/0\n"),
    ];
    for (len, expected, text) in cases {
        let blanks = vec![in alloc; b' '; len]?;
        let mut files = SureFiles::new(one_file(alloc, &blanks)?);
        let mut sink = SureSink::new(alloc);
        assert_eq!(rt; status(&rt, alloc, &mut files, &mut sink)?, expected);
        assert_eq!(rt; sink.written(), text.as_bytes());
    }
    Ok(())
}
