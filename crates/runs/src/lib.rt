// Laws of runs that go on where another stopped. Definitions and laws only.
#![tactic(auto)]
