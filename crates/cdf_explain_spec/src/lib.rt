// Why a stream is refused: in specs/ what the tool tells of a refusal, and what is claimed of it.
#![tactic(auto)]
