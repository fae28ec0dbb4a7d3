// Tasks as a walk over statements makes them: what it makes of one is that task's run by itself, and tasks that ran together are a coforall.
// Laws alone stand here, between `dpl_task`, which runs tasks on threads, and the walk's clause.
#![tactic(auto)]
