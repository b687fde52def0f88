ghost use Rattle.block.specs.Laws.{PacketsAgree};

/// What a survey counts is what is handed out: the packets that a block carries, each once. A block of another length than
/// 1 to 512 is refused.
pub fn blocks_agree()
    ensures { PacketsAgree }
{}
