// Nothing to run: things that have numbers, each call naming one of them, and the law that what one thing answers depends on its own calls alone.
#![tactic(auto)]
