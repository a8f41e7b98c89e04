// What the value of each key is.
ghost use Rattle.std.specs.Prelude.{◌≡◌};
ghost use Rattle.gw_config.specs.Keys.{kind_of};

/// What a value is.
#[derive(Clone, Copy, Debug, PartialEq, Eq)]
pub(crate) enum ValueKind {
    /// A whole number, from the first of these to the second.
    Number(u64, u64),
    /// `true` or `false`.
    Switch,
    /// A path that can be exported.
    ExportPath,
}

/// What the value of a key is, or none where there is no such key.
#[tactic(auto, unfolding(crate::specs::Keys::kind_of))]
pub(crate) fn value_kind(key: &str) -> Option<ValueKind>
    ensures { result ≡ kind_of key.now }
{
    match key {
        "calls" => Some(ValueKind::Number(1, 256)),
        "commits" => Some(ValueKind::Number(1, 1024)),
        "contexts" => Some(ValueKind::Number(1, 128)),
        "export" => Some(ValueKind::ExportPath),
        "fsid" => Some(ValueKind::Number(0, 9_223_372_036_854_775_807)),
        "history" => Some(ValueKind::Number(1, 131_072)),
        "line_slots" => Some(ValueKind::Number(1, 8)),
        "memory_cap" => Some(ValueKind::Number(1, 8_388_608)),
        "memory_mark" => Some(ValueKind::Number(0, 8_388_608)),
        "pending_max" => Some(ValueKind::Number(1, 65_536)),
        "read_only" => Some(ValueKind::Switch),
        "ready_cap" => Some(ValueKind::Number(1, 8_388_608)),
        "spill_size" => Some(ValueKind::Number(0, 1_099_511_627_776)),
        "timeout_ms" => Some(ValueKind::Number(1, 9_007_199_254_740_992)),
        "workers" => Some(ValueKind::Number(1, 16)),
        _ => None,
    }
}
