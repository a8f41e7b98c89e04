use crate::{Config, ConfigFault};
use std::alloc::{AllocError, Global};
use std::test::Fail;

// What is said of a text that is refused, and nothing of one that isn't.
fn said(alloc: Global, text: &str) -> Result<String, AllocError> {
    match Config::from_toml(alloc, text) {
        Ok(_) => Ok(String::new(alloc)),
        Err(fault) => format!(in alloc; "{fault}"),
    }
}

// A path of a slash and this many letters behind it, as a setting.
fn export_of(alloc: Global, letters: u32) -> Result<String, AllocError> {
    let mut text = String::from_str(alloc, "export='/")?;
    for _ in 0..letters {
        text.push('a')?;
    }
    text.push('\'')?;
    Ok(text)
}

#[test]
fn nothing_is_set(rt: HostRuntime) -> Result<(), Fail> {
    let config = Config::from_toml(rt.alloc(), "")?;
    assert_eq!(rt; config.calls, 256);
    assert_eq!(rt; config.contexts, 128);
    assert_eq!(rt; config.export.as_str(), "/");
    assert_eq!(rt; config.fsid, 1);
    assert!(rt; !config.read_only);
    assert_eq!(rt; config.workers, 4);
    let limits = config.limits();
    assert_eq!(rt; limits.commits, 1024);
    assert_eq!(rt; limits.history, 131_072);
    assert_eq!(rt; limits.line_slots, 8);
    assert_eq!(rt; limits.memory_cap, 8_388_608);
    assert_eq!(rt; limits.memory_mark, 1_048_576);
    assert_eq!(rt; limits.pending_max, 65_536);
    assert_eq!(rt; limits.ready_cap, 8_388_608);
    assert_eq!(rt; limits.spill_size, 67_108_864);
    assert_eq!(rt; limits.timeout_ms, 600_000);
    Ok(())
}

#[test]
fn all_is_set(rt: HostRuntime) -> Result<(), Fail> {
    let text = "calls=2\ncommits=3\ncontexts=4\nexport='/data'\nfsid=0\nhistory=5\nline_slots=6\n\
        memory_cap=9\nmemory_mark=8\npending_max=10\nread_only=true\nready_cap=11\nspill_size=0\n\
        timeout_ms=12\nworkers=13";
    let config = Config::from_toml(rt.alloc(), text)?;
    assert_eq!(rt; config.calls, 2);
    assert_eq!(rt; config.contexts, 4);
    assert_eq!(rt; config.export.as_str(), "/data");
    assert_eq!(rt; config.fsid, 0);
    assert!(rt; config.read_only);
    assert_eq!(rt; config.workers, 13);
    let limits = config.limits();
    assert_eq!(rt; limits.commits, 3);
    assert_eq!(rt; limits.history, 5);
    assert_eq!(rt; limits.line_slots, 6);
    assert_eq!(rt; limits.memory_cap, 9);
    assert_eq!(rt; limits.memory_mark, 8);
    assert_eq!(rt; limits.pending_max, 10);
    assert_eq!(rt; limits.ready_cap, 11);
    assert_eq!(rt; limits.spill_size, 0);
    assert_eq!(rt; limits.timeout_ms, 12);
    Ok(())
}

#[test]
fn a_mark_is_lowered_unless_it_is_given(rt: HostRuntime) -> Result<(), Fail> {
    let config = Config::from_toml(rt.alloc(), "memory_cap=5159")?;
    assert_eq!(rt; config.limits.memory_mark, 5159);
    let config = Config::from_toml(rt.alloc(), "memory_mark=1100\nmemory_cap=5159")?;
    assert_eq!(rt; config.limits.memory_mark, 1100);
    Ok(())
}

#[test]
fn wrong_settings_are_named(rt: HostRuntime) -> Result<(), Fail> {
    let cases = [
        ("colour=1", "unknown setting colour"),
        ("contexts=0", "contexts can't be 0"),
        ("contexts=", "not a TOML document"),
        ("contexts", "not a TOML document"),
        ("contexts=1\ncontexts=1", "not a TOML document"),
        ("contexts='1'", "contexts is of the wrong type"),
        ("contexts=1.0", "contexts is of the wrong type"),
        ("read_only=0", "read_only is of the wrong type"),
        ("export=1", "export is of the wrong type"),
        (
            "export='data'",
            "export isn't a path of at most 1,024 bytes from / on",
        ),
        (
            "export=''",
            "export isn't a path of at most 1,024 bytes from / on",
        ),
        ("contexts.most=1", "contexts is of the wrong type"),
        ("[limits]\nhistory=1", "unknown setting limits"),
        ("Contexts=1", "unknown setting Contexts"),
        // the first key in the order of the bytes, and the mark last
        ("workers=0\ncontexts=true", "contexts is of the wrong type"),
        ("zone=1\ncalls=0", "calls can't be 0"),
        ("a=1\ncalls=0", "unknown setting a"),
        ("memory_cap=9\nmemory_mark=10", "memory_mark can't be 10"),
        (
            "memory_cap=9\nmemory_mark=10\nworkers=0",
            "workers can't be 0",
        ),
    ];
    for (text, refusal) in cases {
        assert_eq!(rt; said(rt.alloc(), text)?.as_str(), refusal, "{text}");
    }
    Ok(())
}

#[test]
fn ranges_end_where_they_should(rt: HostRuntime) -> Result<(), Fail> {
    // each key with what is below its range, its ends, and what is above it
    let cases = [
        ("calls", "0", "1", "256", "257"),
        ("commits", "0", "1", "1024", "1025"),
        ("contexts", "0", "1", "128", "129"),
        (
            "fsid",
            "-1",
            "0",
            "9223372036854775807",
            "-9223372036854775808",
        ),
        ("history", "0", "1", "131072", "131073"),
        ("line_slots", "0", "1", "8", "9"),
        ("memory_cap", "0", "1", "8388608", "8388609"),
        ("memory_mark", "-1", "0", "8388608", "8388609"),
        ("pending_max", "0", "1", "65536", "65537"),
        ("ready_cap", "0", "1", "8388608", "8388609"),
        ("spill_size", "-1", "0", "1099511627776", "1099511627777"),
        (
            "timeout_ms",
            "0",
            "1",
            "9007199254740992",
            "9007199254740993",
        ),
        ("workers", "0", "1", "16", "17"),
    ];
    let alloc = rt.alloc();
    for (key, below, least, most, above) in cases {
        for value in [least, most] {
            let text = format!(in alloc; "{key}={value}")?;
            assert_eq!(rt; said(alloc, text.as_str())?.as_str(), "", "{key}={value}");
        }
        for value in [below, above] {
            let text = format!(in alloc; "{key}={value}")?;
            let refusal = format!(in alloc; "{key} can't be {value}")?;
            assert_eq!(rt; said(alloc, text.as_str())?.as_str(), refusal.as_str());
        }
    }
    Ok(())
}

#[test]
fn an_export_has_at_most_1024_bytes(rt: HostRuntime) -> Result<(), Fail> {
    let alloc = rt.alloc();
    let config = Config::from_toml(alloc, export_of(alloc, 1023)?.as_str())?;
    assert_eq!(rt; config.export.len(), 1024);
    let refused = Config::from_toml(alloc, export_of(alloc, 1024)?.as_str());
    assert!(rt; matches!(refused, Err(ConfigFault::BadExport)));
    Ok(())
}
